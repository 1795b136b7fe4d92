//! The law about unit costs, the contract of a function that does nothing.

ghost use Rattle.sdf_prec.specs.UnitRows.{UnitFreeRowsArePlain, UnitHomedRowsArePlain};

/// States that the rows of the rule with costs are Hu's rows without times if each firing costs 1.
pub fn unit_rows_are_plain()
    ensures free { UnitFreeRowsArePlain }
    ensures homed { UnitHomedRowsArePlain }
{}
