//! Laws of sorted entries: as pairs of a table, in look-ups, and in scans for their view.
ghost use Rattle.leveldb_base.specs.Entries.{PairIsRead, RisingIsSorted, InternalIsTotal, FirstIsNewest, FirstOfKeyIsNewest};
ghost use Rattle.leveldb_base.specs.Layers.{LayersAreSearched, FoundIsValue, FoundByKey};
ghost use Rattle.leveldb_base.specs.View.{SortedHasView};
ghost use Rattle.leveldb_base.specs.Scan.{EachScanStarts, EachScanSteps, EachScanEnds, EachScanSeeks, EachSeekOfPairs, EachScanResumes, EachScanStepsBack, EachPreviousIsLast};

/// The pair of an entry is read as that entry, pairs whose internal keys rise represent sorted
/// entries, and internal keys have a total order.
pub fn pairs_represent_entries()
    ensures read { PairIsRead }
    ensures sorted { RisingIsSorted }
    ensures total { InternalIsTotal }
{}

/// The first pair at or after a key and a sequence number is the key's newest entry at or below
/// the number, if it is one of the key; else there is none.
pub fn first_pair_is_newest()
    ensures any { FirstIsNewest }
    ensures made { FirstOfKeyIsNewest }
{}

/// A look-up that goes from newer layers to older ones and ends at the first that has an entry of
/// the key finds what all of them have, and that is the key's value.
pub fn layers_are_searched()
    ensures layers { LayersAreSearched }
    ensures value { FoundIsValue }
    ensures by_key { FoundByKey }
{}

/// Of sorted entries the first of each key at or below a sequence number gives the view.
pub fn sorted_entries_have_view()
    ensures { SortedHasView }
{}

/// A scan forward of sorted entries shows the pairs of the view in order: from the first one, from
/// the first at or after a key, or on from the current one of a scan backward.
pub fn scans_show_view()
    ensures starts { EachScanStarts }
    ensures steps { EachScanSteps }
    ensures ends { EachScanEnds }
    ensures seeks { EachScanSeeks }
    ensures seeks_pairs { EachSeekOfPairs }
    ensures resumes { EachScanResumes }
{}

/// A scan backward of sorted entries finds the pair of the view that is before a position.
pub fn scans_back_show_view()
    ensures steps { EachScanStepsBack }
    ensures previous { EachPreviousIsLast }
{}
