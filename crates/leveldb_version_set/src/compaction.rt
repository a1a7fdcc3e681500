//! Compactions: which files one takes of a level and of the next, and the edit that it makes.
// LevelDB: db/version_set.cc, Compaction
ghost use Rattle.std.specs.Prelude.{◌≡◌, ◌≢◌, ◌↔◌, ◌<◌, ◌+◌, ◌*◌, ◌++◌, ◌∷◌, [], List, None, IfErr, IfOk, IfSome, IsPermutation, IsTrue, OnErr, OnOk, length, map, nat_lt, slice_get};
ghost use Rattle.std.specs.Option.{option_copied, option_map};
ghost use Rattle.leveldb_base.specs.Error.{IsOutOfMemory};
ghost use Rattle.leveldb_base.specs.KeyTypes.{user_part};
ghost use Rattle.leveldb_version_set.specs.Compactions.Compaction.{MayMove};
ghost use Rattle.leveldb_version.specs.Versions.DeeperLevels.{closed_range, is_base_level_for};
ghost use Rattle.leveldb_version_set.specs.Compactions.CompactionEdit.{SetsPointer};
ghost use Rattle.leveldb_version_set.specs.Compactions.Contradictions.{IsAmongInputs, is_among_inputs};
ghost use Rattle.leveldb_version_set.specs.Compactions.Cut.{PassesFiles};
ghost use Rattle.leveldb_version_set.specs.Compactions.Inputs.{MayTake, input_files};
ghost use Rattle.leveldb_files.specs.Levels.Overlap.{overlapping};
ghost use Rattle.leveldb_version_set.specs.Compactions.Picking.{DeletesFiles, IsCompactionOf, OnlyPoints};
ghost use Rattle.leveldb_version.specs.Versions.Search.{AreDisjointLevels};
ghost use Rattle.leveldb_files.specs.Levels.Summary.{files_of_level, total_size};
ghost use Rattle.leveldb_version.specs.Versions.Version.{at_level, borrowed_files, new_files_of};
ghost use Rattle.leveldb_files.specs.Edits.Edit.{NewFile};
ghost use Rattle.leveldb_version.specs.Edits.VersionEdit.{edit_of, new_file_of};
ghost use Rattle.leveldb_version.specs.Walks.VersionIters.{AreVersionIters};

use leveldb_base::cmp::UserCmp;
use leveldb_base::error::Result;
use leveldb_base::key_types::{InternalKey, UserKey, split_sequence};
use leveldb_base::types::{FileMetaData, FileNum};
use leveldb_version::version::{Version, VersionIter, product};
use leveldb_version::version_edit::VersionEdit;
use std::alloc::Global;
use std::collections::BTreeSet;
use std::marker::Model;

pub mod cut;
pub mod inputs;
pub mod pick;

use cut::OutputCut;
use inputs::{Inputs, ends_of, is_among};

/// A compaction of a level: the files that it takes of it and of the next one, and the edit that it
/// makes. It has copies of the metadata of its version, so that the set may go on meanwhile.
#[derive(Drop)]
pub struct Compaction<C: UserCmp + Copy + Drop> {
    // The version whose files it takes.
    version: Version<C>,

    level: usize,

    // Whether a range was asked for.
    manual: bool,

    max_file_size: usize,

    // The files that it takes.
    inputs: Version<C>,

    edit: VersionEdit,
    cut: OutputCut,
}

impl<C: UserCmp + Copy + Drop> Model for Compaction<C> {
    ghost use Rattle.leveldb_version_set.specs.Compactions.Picking.{CompactionValue};

    ghost Value = { CompactionValue C };

    ghost use Rattle.leveldb_version.specs.Edits.VersionEdit.{edit_of};

    ghost view = { λ it. record {
      version = it.version;
      level = it.level;
      manual = it.manual;
      max_file_size = it.max_file_size;
      inputs = it.inputs;
      edit = edit_of it.edit;
      cut = it.cut;
    } };

    ghost use Rattle.std.specs.Prelude.{◌≡◌};
    ghost use Rattle.leveldb_version_set.specs.Compactions.Compaction.{MayCompact};
    ghost use Rattle.leveldb_version.specs.Versions.Version.{new_files_of};

    ghost invariant = { λ it. (it.inputs.cmp ≡ it.version.cmp)
        × MayCompact (C.cmp it.version.cmp) (new_files_of it.version) it.level
        (new_files_of it.inputs) };
}

impl<C: UserCmp + Copy + Drop> Compaction<C> {
    /// The compaction that takes these files of a level of a version and of the next. Its edit sets
    /// the level's pointer to where the former end.
    pub fn new(
        alloc: Global,
        version: &Version<C>,
        level: usize,
        manual: bool,
        max_file_size: usize,
        inputs: &Inputs<'_>,
    ) -> Result<Compaction<C>>
        requires { MayTake (C.cmp version.now.cmp) (new_files_of version.now) level inputs.now }
        ensures ok { IfOk result
            (IsCompactionOf (C.cmp version.now.cmp) version.now manual max_file_size) }
        ensures level { IfOk result (λ it. it.level ≡ level) }
        ensures inputs { IfOk result (λ it.
            IsPermutation (input_files inputs.now) (new_files_of it.inputs)) }
        ensures memory { IfErr result IsOutOfMemory }
    {
        let edit = pointing_edit(alloc, version.ucmp(), level, inputs)?;
        let inputs = version_of(alloc, version.ucmp(), inputs)?;
        let version = version.copy(alloc)?;
        Ok(Compaction {
            version,
            level,
            manual,
            max_file_size,
            inputs,
            edit,
            cut: OutputCut::new(),
        })
    }

    /// The level.
    pub fn level(&self) -> usize
        ensures level { result ≡ self.now.level }
        ensures known { result < 6 }
    {
        self.level
    }

    /// How many files it takes of the level, or of the next, where `parent` is 1.
    pub fn num_inputs(&self, parent: usize) -> usize
        requires { parent < 2 }
        ensures { result ≡ length
            (files_of_level (self.now.level + parent) (new_files_of self.now.inputs)) }
    {
        self.inputs.num_level_files(self.level + parent)
    }

    /// The file of this index among them, if there is one.
    pub fn input(&self, parent: usize, index: usize) -> Option<&(usize, FileMetaData)>
        requires { parent < 2 }
        ensures { option_copied result
            ≡ slice_get (at_level (self.now.level + parent) self.now.inputs.files) index }
    {
        self.inputs.files(self.level + parent).get(index)
    }

    /// The files that it takes, as a version in the order of its own.
    pub fn inputs(&self) -> &Version<C>
        ensures inputs { result.now ≡ self.now.inputs }
        ensures order { self.now.inputs.cmp ≡ self.now.version.cmp }
    {
        &self.inputs
    }

    /// The edit so far.
    pub fn edit(&self) -> &VersionEdit
        ensures { edit_of result.now ≡ self.now.edit }
    {
        &self.edit
    }

    /// The edit so far, in place of the compaction.
    pub fn into_edit(self) -> VersionEdit
        ensures { edit_of result ≡ self.edit }
    {
        self.edit
    }

    /// Has the edit delete the files that the compaction takes.
    pub fn add_input_deletions(&mut self) -> Result<()>
        ensures ok { OnOk result (DeletesFiles (new_files_of self.old.inputs)
            self.old.edit.deleted self.new.edit.deleted) }
        ensures rest { self.new
            ≡ record self.old { edit = record self.old.edit { deleted = self.new.edit.deleted } } }
        ensures err { OnErr result (self.new ≡ self.old) }
        ensures memory { IfErr result IsOutOfMemory }
    {
        let mut deleted = self.edit.deleted.clone()?;
        add_deletions(&mut deleted, self.inputs.all_files())?;
        self.edit.deleted = deleted;
        Ok(())
    }

    /// Whether no file deeper than the next level has the key in its range, if the files of those
    /// levels are apart.
    pub fn is_base_level_for(&self, key: UserKey<'_>) -> bool
        ensures { let cmp = C.cmp self.now.version.cmp in
            let files = new_files_of self.now.version in
            AreDisjointLevels cmp files
            → result ≡ is_base_level_for cmp (self.now.level + 1) files key.now }
    {
        self.version.is_base_level_for(self.level + 1, key)
    }

    /// Whether a user key is within the range from the first key of one of the files that it takes
    /// to the last key of one.
    pub fn is_among_inputs(&self, key: UserKey<'_>) -> bool
        ensures test { result ≡ is_among_inputs (C.cmp self.now.version.cmp)
            (new_files_of self.now.inputs) key.now }
        ensures exact { IsTrue result ↔ IsAmongInputs (C.cmp self.now.version.cmp)
            (new_files_of self.now.inputs) key.now }
    {
        is_among(self.version.ucmp(), self.inputs.all_files(), key)
    }
}

impl<C: UserCmp + Copy + Drop> Compaction<C> {
    /// Whether it only moves its one file to the next level: it takes none of the next level, and
    /// the files two levels down that overlap the file have fewer bytes than ten files may. One
    /// that was asked for by a range never does.
    pub fn is_trivial_move(&self) -> bool
        ensures { let it = self.now in
            IsTrue result ↔ MayMove (C.cmp it.version.cmp) it.max_file_size it.level it.manual
            (new_files_of it.version) (new_files_of it.inputs) }
    {
        if self.manual {
            return false;
        }
        let Some(file) = self.only_input() else {
            return false;
        };
        self.is_small_two_down(file)
    }

    // The file that it takes, if that is one, of the level.
    fn only_input(&self) -> Option<&(usize, FileMetaData)>
        ensures some { IfSome (option_map new_file_of (option_copied result)) (λ file.
            (new_files_of self.now.inputs ≡ file ∷ []) × (file.level ≡ self.now.level)) }
        ensures none { result ≡ None → (file : NewFile)
            → new_files_of self.now.inputs ≡ file ∷ [] → file.level ≢ self.now.level }
    {
        let files = self.inputs.all_files();
        let Some(file) = files.first() else {
            return None;
        };
        if files.len() != 1 {
            return None;
        }
        if file.0 != self.level {
            return None;
        }
        Some(file)
    }

    // Whether the files two levels down that overlap a file have fewer bytes than ten files may.
    fn is_small_two_down(&self, file: &(usize, FileMetaData)) -> bool
        ensures { let range = closed_range (user_part file.now.1.smallest)
            (user_part file.now.1.largest) in
            result ≡ nat_lt (total_size (overlapping (C.cmp self.now.version.cmp)
            (self.now.level + 2) range (new_files_of self.now.version)))
            (10 * self.now.max_file_size) }
    {
        let (low, _) = split_sequence(&file.1.smallest);
        let (high, _) = split_sequence(&file.1.largest);
        let size = self.version.size_between(self.level + 2, low, high);
        (size as u128) < product(10, self.max_file_size)
    }

    /// Whether an output is to end before this key, as it has passed more bytes two levels down
    /// than ten files may have. The keys come in order, each once, those that are dropped, too.
    pub fn should_stop_before(&mut self, key: InternalKey<'_>) -> bool
        ensures passes { let it = self.old in
            PassesFiles (C.cmp it.version.cmp)
            (files_of_level (it.level + 2) (new_files_of it.version)) it.max_file_size key.now
            it.cut result self.new.cut }
        ensures rest { self.new ≡ record self.old { cut = self.new.cut } }
    {
        let mut cut = self.cut;
        let stops = cut.stops_before(self, key);
        self.cut = cut;
        stops
    }

    fn max_file_size(&self) -> usize
        ensures { result ≡ self.now.max_file_size }
    {
        self.max_file_size
    }

    fn files_two_down(&self) -> &[(usize, FileMetaData)]
        ensures { map new_file_of result.now
            ≡ files_of_level (self.now.level + 2) (new_files_of self.now.version) }
    {
        self.version.part(self.level + 2)
    }

    fn ucmp(&self) -> &C
        ensures { result.now ≡ self.now.version.cmp }
    {
        self.version.ucmp()
    }

    /// Walks over the tables of the files that it takes: one for each file of level 0, and one for
    /// each other level.
    pub fn input_iters(&self, alloc: Global) -> Result<Vec<VersionIter<'_, C>>>
        ensures ok { IfOk result (λ iters. AreVersionIters self.now.inputs iters.items) }
        ensures memory { IfErr result IsOutOfMemory }
    {
        self.inputs.new_iters(alloc)
    }
}

// An edit that sets the pointer of a level to where its files end.
fn pointing_edit<C: UserCmp>(
    alloc: Global,
    ucmp: &C,
    level: usize,
    inputs: &Inputs<'_>,
) -> Result<VersionEdit>
    ensures pointer { IfOk result (λ edit. (files : List NewFile)
        → MayTake (C.cmp ucmp.now) files level inputs.now
        → SetsPointer (C.cmp ucmp.now) level (input_files inputs.now) (edit_of edit)) }
    ensures only { IfOk result (λ edit. OnlyPoints (edit_of edit)) }
    ensures memory { IfErr result IsOutOfMemory }
{
    let mut edit = VersionEdit::new(alloc);
    let Some((_, largest)) = ends_of(ucmp, inputs.of_level.as_slice()) else {
        return Ok(edit);
    };
    edit.set_compact_pointer(level, largest)?;
    Ok(edit)
}

// Copies of the files, as a version.
fn version_of<C: UserCmp + Copy + Drop>(
    alloc: Global,
    ucmp: &C,
    inputs: &Inputs<'_>,
) -> Result<Version<C>>
    ensures files { IfOk result (λ version.
        IsPermutation (input_files inputs.now) (new_files_of version)) }
    ensures cmp { IfOk result (λ version. version.cmp ≡ ucmp.now) }
    ensures memory { IfErr result IsOutOfMemory }
{
    let mut files = Vec::new(alloc);
    push_copies(&mut files, inputs.of_level.as_slice())?;
    push_copies(&mut files, inputs.of_next.as_slice())?;
    Version::of_files(alloc, *ucmp, files.as_slice())
}

// Appends copies of files.
fn push_copies(
    copies: &mut Vec<(usize, FileMetaData)>,
    files: &[&(usize, FileMetaData)],
) -> Result<()>
    ensures ok { OnOk result (map new_file_of copies.new.items
        ≡ map new_file_of copies.old.items ++ borrowed_files files.now) }
    ensures memory { IfErr result IsOutOfMemory }
{
    for file in files {
        copies.push((file.0, file.1.clone()?))?;
    }
    Ok(())
}

// Inserts the levels and numbers of files.
fn add_deletions(
    deleted: &mut BTreeSet<(usize, FileNum)>,
    files: &[(usize, FileMetaData)],
) -> Result<()>
    ensures ok { OnOk result
        (DeletesFiles (map new_file_of files.now) deleted.old.keys deleted.new.keys) }
    ensures memory { IfErr result IsOutOfMemory }
{
    for file in files {
        deleted.insert((file.0, file.1.num))?;
    }
    Ok(())
}
