//! Laws of merges, each the contract of a function that does nothing.
ghost use Rattle.leveldb_iter.specs.Merge.{EachHasMerge, MergeIsExact, OneMerge};
ghost use Rattle.leveldb_iter.specs.MergedEntries.{MergeIsOfEntries, LayersHaveMerge};

/// Sorted lists have a merge, in any total order; and where pairs of equal key are the same pair,
/// it has exactly their pairs, and there is only one.
pub fn lists_have_one_merge()
    ensures each { EachHasMerge }
    ensures exact { MergeIsExact }
    ensures one { OneMerge }
{}

/// A merge of internal keys represents exactly the entries of its lists, sorted, if pairs of equal
/// key are the same pair. Layers of entries have one, and are so.
pub fn merges_are_of_entries()
    ensures entries { MergeIsOfEntries }
    ensures layers { LayersHaveMerge }
{}
