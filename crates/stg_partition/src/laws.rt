//! The laws of partitions. Nothing here does work at run time.

ghost use Rattle.stg_partition.specs.Partition.{EachTextHasOneAnswer};

/// A text names one partition of a specification's net, or is refused by one error.
pub fn law_partition()
    ensures { EachTextHasOneAnswer }
{}
