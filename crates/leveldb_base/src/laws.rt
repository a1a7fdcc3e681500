//! Laws of the definitions, each the contract of a function that does nothing: encodings are unique
//! and can be read again, names tell their files apart, and a set of entries has one view.
ghost use Rattle.std.specs.Prelude.{◌≡◌, ◌↔◌, ℕ, ◌%◌, ◌^◌, ◌<◌, ◌≤◌, List, ◌++◌, length, take, Option, Some, Result, Ok, All};
ghost use Rattle.byteorder.specs.Endian.{little_number};
ghost use Rattle.leveldb_base.specs.Varint.{little, IsVarint, varint, sized, ReadsVarint, ReadsSized};
ghost use Rattle.leveldb_base.specs.BlockHandle.{Handle, HandleFits, handle_bytes, ReadsHandle};
ghost use Rattle.leveldb_base.specs.KeyTypes.{tag, internal_key, user_part, tag_part, sequence_part, type_part, lookup_key, memtable_key, front_key, SplitsInto};
ghost use Rattle.leveldb_base.specs.declared.key_types.ValueType.{ValueType};
ghost use Rattle.leveldb_base.specs.declared.error.Status.{Status};
ghost use Rattle.leveldb_base.specs.declared.types.FileType.{FileType};
ghost use Rattle.leveldb_base.specs.Names.{IsFileName, ReadsName, MayHaveNumber, file_name, file_path};
ghost use Rattle.leveldb_base.specs.History.{OneView, EachHasView, RisingIsConsistent, HistoryIsConsistent, BatchesAreHistory, ViewPasses, SharedViewIsSame, SameWithMore, OneRisingList};

pub mod entries;
pub mod thinning;

/// The bytes that encode a number are those that are written for it, so equal numbers are equal
/// bytes.
pub fn varints_have_one_encoding()
    ensures { (bytes : List ℕ) (n : ℕ) → IsVarint bytes n ↔ (bytes ≡ varint n) }
{}

/// No encoding is empty; 5 bytes are enough for any number of 32 bits, and 10 for any of 64.
pub fn varints_are_short()
    ensures some { (n : ℕ) → 1 ≤ length (varint n) }
    ensures bits_32 { (n : ℕ) → n < 2 ^ 32 → length (varint n) ≤ 5 }
    ensures bits_64 { (n : ℕ) → n < 2 ^ 64 → length (varint n) ≤ 10 }
{}

/// No number's encoding is a prefix of another's, so a sequence of numbers can be read in one way.
pub fn varints_are_prefix_free()
    ensures { (m n : ℕ) (x y : List ℕ) → varint m ++ x ≡ varint n ++ y → (m ≡ n) × (x ≡ y) }
{}

/// No text after its length is a prefix of another, so a sequence of such texts can be read in one
/// way.
pub fn sized_texts_are_prefix_free()
    ensures { (s t x y : List ℕ) → sized s ++ x ≡ sized t ++ y → (s ≡ t) × (x ≡ y) }
{}

/// What was written is read: a reader that keeps its contract returns the number, or the text, that
/// was written.
pub fn written_is_read()
    ensures number { (bits n : ℕ) (rest : List ℕ) (found : Option (ℕ × ℕ)) → n < 2 ^ bits
        → ReadsVarint bits (varint n ++ rest) found → found ≡ Some (n, length (varint n)) }
    ensures text { (text rest : List ℕ) (found : Option (List ℕ × List ℕ)) → length text < 2 ^ 64
        → ReadsSized (sized text ++ rest) found → found ≡ Some (text, rest) }
{}

/// A fixed integer of any width is its bytes and no others: bytes to a number and back are these
/// bytes, and a number to bytes and back is this number.
pub fn fixed_integers_are_their_bytes()
    ensures bytes { (width : ℕ) (bytes : List ℕ) → width ≤ length bytes → All (λ b. b < 256) bytes
        → little width (little_number width bytes) ≡ take width bytes }
    ensures number { (width n : ℕ) (rest : List ℕ) → n < 256 ^ width
        → little_number width (little width n ++ rest) ≡ n }
{}

/// No handle's encoding is a prefix of another's, so a sequence of handles can be read in one way.
#[tactic(auto, using(crate::proofs::BlockHandleLemmas::one_handle))]
pub fn handles_are_prefix_free()
    ensures { (g h : Handle) (x y : List ℕ) → handle_bytes g ++ x ≡ handle_bytes h ++ y
        → (g ≡ h) × (x ≡ y) }
{}

/// What was written is read: a reader that keeps the contract of `decode` returns the handle that
/// was written.
#[tactic(auto, using(crate::proofs::BlockHandleLemmas::read_handle))]
pub fn written_handle_is_read()
    ensures { (handle : Handle) (rest : List ℕ) (found : Option (Handle × ℕ)) → HandleFits handle
        → ReadsHandle (handle_bytes handle ++ rest) found
        → found ≡ Some (handle, length (handle_bytes handle)) }
{}

/// An internal key is read as it was written, and bytes whose type is a known one are the internal
/// key of their parts.
pub fn internal_keys_have_one_encoding()
    ensures read { (user : List ℕ) (sequence : ℕ) (kind : ValueType) → sequence < 2 ^ 56
        → (user_part (internal_key user sequence kind) ≡ user)
        × (sequence_part (internal_key user sequence kind) ≡ sequence)
        × (type_part (internal_key user sequence kind) ≡ kind) }
    ensures written { (key : List ℕ) → 8 ≤ length key → All (λ b. b < 256) key
        → tag_part key % 256 < 2
        → internal_key (user_part key) (sequence_part key) (type_part key) ≡ key }
{}

/// What is written for an entry in memory has the entry's parts, bytes have no other parts, and a
/// memtable key or a look-up key is ordered by the internal key in it.
pub fn memtable_keys_have_one_encoding()
    ensures written { (user : List ℕ) (sequence : ℕ) (kind : ValueType) (value : List ℕ)
        → sequence < 2 ^ 56
        → SplitsInto (memtable_key user sequence kind value) user
        (Some (tag sequence kind, value)) }
    ensures only { (bytes user other : List ℕ) (these those : Option (ℕ × List ℕ))
        → SplitsInto bytes user these → SplitsInto bytes other those
        → (user ≡ other) × (these ≡ those) }
    ensures entry { (user : List ℕ) (sequence : ℕ) (kind : ValueType) (value : List ℕ)
        → front_key (memtable_key user sequence kind value) ≡ internal_key user sequence kind }
    ensures looked_up { (user : List ℕ) (sequence : ℕ) (kind : ValueType)
        → front_key (lookup_key user sequence kind) ≡ internal_key user sequence kind }
{}

/// A name has one number and one type.
#[tactic(auto, using(crate::proofs::NamesLemmas::one_reading))]
pub fn names_have_one_reading()
    ensures { (name : List ℕ) (m n : ℕ) (k l : FileType) → IsFileName name m k
        → IsFileName name n l → (m ≡ n) × (k ≡ l) }
{}

/// The names that a store gives are read: a reader that keeps the contract of `parse_file_name`
/// returns the number and the type.
#[tactic(auto, using(crate::proofs::NamesLemmas::made_name, crate::proofs::NamesLemmas::read_made_name))]
pub fn made_names_are_read()
    ensures names { (kind : FileType) (n : ℕ) → MayHaveNumber kind n
        → IsFileName (file_name kind n) n kind }
    ensures read { (kind : FileType) (n : ℕ) (found : Result (ℕ × FileType) Status)
        → MayHaveNumber kind n → ReadsName (file_name kind n) found → found ≡ Ok (n, kind) }
{}

/// Files of different numbers or types have different names.
#[tactic(auto, using(crate::proofs::NamesLemmas::made_names_apart, crate::proofs::NamesLemmas::made_paths_apart))]
pub fn made_names_differ()
    ensures names { (m n : ℕ) (k l : FileType) → MayHaveNumber k m → MayHaveNumber l n
        → file_name k m ≡ file_name l n → (m ≡ n) × (k ≡ l) }
    ensures paths { (store : List ℕ) (m n : ℕ) (k l : FileType) → MayHaveNumber k m
        → MayHaveNumber l n → file_path store k m ≡ file_path store l n → (m ≡ n) × (k ≡ l) }
{}

/// A set of entries has at most one view at a sequence number. It has one where no two different
/// entries have one key and one number.
pub fn views_are_unique()
    ensures one { OneView }
    ensures each { EachHasView }
{}

/// No two different entries have one key and one number where sequence numbers rise, and in a
/// history. Placed batches are a history exactly if the numbers of their entries rise from 1 on.
pub fn histories_are_consistent()
    ensures rising { RisingIsConsistent }
    ensures history { HistoryIsConsistent }
    ensures batches { BatchesAreHistory }
{}

/// Sets of entries have the same view exactly where they give each key the same value.
pub fn same_sets_have_same_view()
    ensures passes { ViewPasses }
    ensures shared { SharedViewIsSame }
{}

/// Sets that give the same values still do once the same newer entries are added to both.
pub fn newer_entries_keep_sameness()
    ensures { SameWithMore }
{}

/// Lists of the same pairs whose keys rise are one list, in any total order.
pub fn rising_lists_are_one()
    ensures { OneRisingList }
{}
