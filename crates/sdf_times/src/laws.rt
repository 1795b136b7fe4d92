//! Laws about the definitions, each the contract of a function that does nothing.

ghost use Rattle.sdf_times.specs.Laws.{StartsExist, StartsAreLeast, StartsAreOne, BoundsHold, RowsAreNoSooner};
ghost use Rattle.sdf_times.specs.Laws.{RowsAreOnTime};
ghost use Rattle.sdf_times.specs.ByRows.{RowsTakeLonger};
ghost use Rattle.sdf_times.specs.Periods.{SelfTimedExist, SelfTimedAreLeast, SelfTimedAreOne, BlocksEnd};
ghost use Rattle.sdf_times.specs.Periods.{PeriodsAreCertified, OnePeriod, LoadsAreWithin, PeriodIsWithinRows};
ghost use Rattle.sdf_times.specs.Periods.{PeriodIsWithinWork, WorkIsShared, OneColumnWorks, MakespanIsWithinFirst};
ghost use Rattle.sdf_times.specs.Periods.{PeriodIsWithinFirst, FirstIsWithinRows, MoreRoomIsNoLonger};
ghost use Rattle.sdf_times.specs.Certificates.{CertificatesHold};

/// States that a valid table has exactly one set of times: the least at which each firing starts after the firings that
/// come before it.
pub fn starts_are_decided()
    ensures exist { StartsExist }
    ensures least { StartsAreLeast }
    ensures one { StartsAreOne }
{}

/// States that no table of a block with the bound's number of columns ends before the bound.
pub fn bounds_hold()
    ensures { BoundsHold }
{}

/// States that no firing in a table by Hu's rule starts later than the rule starts its row.
pub fn rows_are_no_sooner()
    ensures { RowsAreNoSooner }
{}

/// States that in a table by Hu's rule with costs of at least 1, each firing starts exactly when the rule starts its
/// row.
pub fn rows_are_on_time()
    ensures { RowsAreOnTime }
{}

/// States that no table ends later than it would row by row.
pub fn rows_take_longer()
    ensures { RowsTakeLonger }
{}

/// States that what can be run has exactly one set of self-timed starts: the least at which no firing starts sooner
/// than the firings that hold it back allow. Each block has an end.
pub fn self_timed_starts_are_decided()
    ensures exist { SelfTimedExist }
    ensures least { SelfTimedAreLeast }
    ensures one { SelfTimedAreOne }
    ensures ends { BlocksEnd }
{}

/// States that a certificate gives the period of a self-timed run, and that there is at most one period.
pub fn periods_are_certified()
    ensures certified { PeriodsAreCertified }
    ensures one { OnePeriod }
{}

/// States that no load is above the period, and that the period is at most what a block takes row by row, and at most
/// its work. It is at least the work over the number of columns, and on one column it is the work.
pub fn periods_are_bounded()
    ensures loads { LoadsAreWithin }
    ensures rows { PeriodIsWithinRows }
    ensures work { PeriodIsWithinWork }
    ensures shares { WorkIsShared }
    ensures one { OneColumnWorks }
{}

/// States that what a certificate says is the period of each self-timed run of the table.
pub fn certificates_hold()
    ensures { CertificatesHold }
{}

/// States that the makespan and the period are within the first block of a run, which takes no longer than row by row.
pub fn first_blocks_bound()
    ensures makespan { MakespanIsWithinFirst }
    ensures period { PeriodIsWithinFirst }
    ensures rows { FirstIsWithinRows }
{}

/// States that more room never makes the period longer.
pub fn more_room_is_no_longer()
    ensures { MoreRoomIsNoLonger }
{}
