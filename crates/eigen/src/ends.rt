// What a settling that gives no pass count leaves of its reduction, in a file of its own: definitions name it.
use fault::Fault;
use tridiagonal::Reduction;

// Refused before the run began, with the reduction handed back; or ended by the run, which has used it up.
#[derive(Drop)]
pub enum Unsettled<R> {
    Refused {
        fault: Fault,
        reduction: Reduction<R>,
    },
    Ended {
        fault: Fault,
    },
}
