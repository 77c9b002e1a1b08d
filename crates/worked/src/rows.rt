ghost use Rattle.std.specs.Prelude.{◌≡◌, length};
ghost use Rattle.worked.specs.Rows.{WorkedRows, rows as the_rows};

/// How many worked examples there are, each of which holds.
pub fn worked_rows() -> u8
    ensures count { result ≡ length the_rows }
    ensures stand { WorkedRows }
{
    13
}
