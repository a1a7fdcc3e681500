//! Laws of the definitions, each the contract of a function that does nothing: an edit is its
//! bytes, the text of `CURRENT` has one reading, and what edits leave.
ghost use Rattle.std.specs.Prelude.{◌≡◌, ◌<◌, ◌^◌, ◌↔◌, ℕ, List, [], ◌∷◌, ◌++◌, Some};
ghost use Rattle.leveldb_base.specs.Names.{file_name};
ghost use Rattle.leveldb_base.specs.declared.types.FileType.TheVariants.{Descriptor};
ghost use Rattle.leveldb_files.specs.Edits.Edit.{Edit, NewFile, IsEdit, IsEncodable, edit_bytes};
ghost use Rattle.leveldb_files.specs.Edits.Current.{IsCurrentText, current_text};
ghost use Rattle.leveldb_files.specs.Edits.VersionSet.{Applied, IsLive, ListsFiles, IsFullEdit, SameFiles, SameNumbers, HasNumbers, live_after, live_at, level_file, live_files, full_edit};

pub mod levels;
pub mod stores;

/// The same bytes are one edit only, and what is written for an edit is that edit. So decoding what
/// was encoded gives the edit back, but for the seeks that its new files may take.
pub fn edits_are_their_bytes()
    ensures one { (bytes : List ℕ) (d e : Edit) → IsEdit bytes d → IsEdit bytes e → d ≡ e }
    ensures written { (edit : Edit) → IsEncodable edit → IsEdit (edit_bytes edit) edit }
{}

/// What `CURRENT` holds names one manifest, and what is written for a manifest names that one.
pub fn current_text_has_one_reading()
    ensures one { (text x y : List ℕ) (m n : ℕ) → IsCurrentText text x m → IsCurrentText text y n
        → (x ≡ y) × (m ≡ n) }
    ensures written { (n : ℕ) → n < 2 ^ 64
        → IsCurrentText (current_text n) (file_name Descriptor n) n }
{}

/// What edits leave: each applies to what those before it left.
#[tactic(auto, using(crate::proofs::Edits::VersionSetLemmas::applies_in_order))]
pub fn edits_apply_in_order()
    ensures { (edits : List Edit) (edit : Edit)
        → Applied edit (live_after edits) (live_after (edits ++ edit ∷ [])) }
{}

/// The files that edits leave are those that were added and changed no more.
pub fn live_files_were_added_last()
    ensures { (edits : List Edit) (file : NewFile)
        → (live_at edits (level_file file) ≡ Some file) ↔ IsLive edits file }
{}

/// The live files are a list that has each of them once.
pub fn live_files_are_a_list()
    ensures { (edits : List Edit) → ListsFiles (live_after edits) (live_files edits) }
{}

/// One edit with the comparator, all compaction pointers and all live files may take the place of
/// the edits before it: whatever edits follow, the files are the same, and the numbers are too once
/// later edits set them. There is such an edit.
pub fn one_edit_replaces_many()
    ensures files { (edits more : List Edit) (edit : Edit) → IsFullEdit (live_after edits) edit
        → SameFiles (live_after (edit ∷ more)) (live_after (edits ++ more)) }
    ensures numbers { (edits others more : List Edit) → HasNumbers (live_after more)
        → SameNumbers (live_after (others ++ more)) (live_after (edits ++ more)) }
    ensures made { (edits : List Edit) → IsFullEdit (live_after edits) (full_edit edits) }
{}
