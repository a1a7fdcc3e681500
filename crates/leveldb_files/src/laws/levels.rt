//! Laws of tables by levels: in which order they are searched, which of them may be left out of a
//! look-up, and which table may be added.
ghost use Rattle.leveldb_files.specs.Steps.StoreLaws.{AddingKeepsOrder, LevelsAreLayered, OutputLevelsCanTake, RangesLeaveOut};

/// Tables in the order of their levels and, in level 0, with the greater numbers first are layers
/// of entries, the newer ones first. So a look-up that stops at the first of them that has an entry
/// of the key finds what all of them have.
pub fn levels_are_layered()
    ensures { LevelsAreLayered }
{}

/// Tables whose range lacks a key may be left out of a look-up of it.
pub fn tables_out_of_range_may_be_left_out()
    ensures { RangesLeaveOut }
{}

/// A table whose entries are newer than all others of their keys may be added to each level down to
/// the first that it overlaps.
pub fn added_tables_keep_the_order()
    ensures { AddingKeepsOrder }
{}

/// A table whose entries are newer than all others may be added to the level that
/// `pick_memtable_output_level` returns for its first and last user keys.
pub fn picked_levels_can_take_tables()
    ensures { OutputLevelsCanTake }
{}
