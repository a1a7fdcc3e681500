//! Laws of what a compaction drops: which entries may go, which do, and what the others show.
ghost use Rattle.leveldb_base.specs.Thinning.{EntryBeforeTells, OneSetIsLeft, ThinnedDropsAll, ThinnedExample, ThinningKeepsViews};

/// Entries of which only those are gone that a newer one shadows, and deletions without an older
/// entry that is left, show the same at each number from the smallest held one on.
pub fn thinned_entries_show_the_same()
    ensures { ThinningKeepsViews }
{}

/// The rule leaves exactly what may not go, and no other set does.
pub fn what_may_go_is_dropped()
    ensures all { ThinnedDropsAll }
    ensures one { OneSetIsLeft }
    ensures example { ThinnedExample }
{}

/// Of sorted entries the one just before an entry tells whether it goes.
pub fn entry_before_tells_what_goes()
    ensures { EntryBeforeTells }
{}
