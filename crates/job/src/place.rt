// Where a table's entries stand: it is kept column by column.
ghost use Rattle.std.specs.Prelude.{◌≡◌, ◌*◌, ◌<◌, ◌≤◌, ◌&&◌, is_some, nat_lt, IfSome};
ghost use Rattle.job.specs.Typed.{is_lower, place};

// A row and a column inside a table of this side.
// The side's bound is asked for: each use here would take the number out of a type of sides again.
#[derive(Clone, Copy)]
pub(crate) struct Place {
    side: usize,
    row: usize,
    column: usize,
    ghost few: { side ≤ 32 },
    ghost row_inside: { row < side },
    ghost column_inside: { column < side },
}

impl Place {
    // None outside the table.
    pub(crate) fn new(side: usize, row: usize, column: usize) -> Option<Self>
        requires { side ≤ 32 }
        ensures inside { is_some result ≡ (nat_lt row side && nat_lt column side) }
        ensures place { IfSome result (λ p. (p.side ≡ side) × (p.row ≡ row) × (p.column ≡ column)) }
    {
        // No `then`, here and below: its closure does not know that the two lie inside (`invariant_of-result`).
        if row < side && column < side {
            Some(Self { side, row, column })
        } else {
            None
        }
    }

    // None above the diagonal too.
    pub(crate) fn lower(side: usize, row: usize, column: usize) -> Option<Self>
        requires { side ≤ 32 }
        ensures inside { is_some result ≡ is_lower side row column }
        ensures place { IfSome result (λ p. (p.side ≡ side) × (p.row ≡ row) × (p.column ≡ column)) }
    {
        if column <= row {
            Self::new(side, row, column)
        } else {
            None
        }
    }

    pub(crate) fn mirrored(self) -> Self
        ensures { (result.side ≡ self.side) × (result.row ≡ self.column) × (result.column ≡ self.row) }
    {
        Self {
            side: self.side,
            row: self.column,
            column: self.row,
        }
    }

    pub(crate) fn index(self) -> usize
        ensures value { result ≡ place self.side self.row self.column }
        ensures within { result < self.side * self.side }
    {
        self.row + self.column * self.side
    }
}
