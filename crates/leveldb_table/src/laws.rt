//! Laws of the definitions, each the contract of a function that does nothing: what each table is,
//! what filters that rule out a key say, which part of a key they go by, and what footers and
//! caches of blocks hold.
ghost use Rattle.std.specs.Prelude.{◌≡◌, ℕ, Bool, true, false, List, length, map, Option, Some, IfSome, ◌<◌, ◌^◌};
ghost use Rattle.std.specs.declared.cmp.Ordering.{Ordering};
ghost use Rattle.leveldb_base.specs.BlockHandle.{Handle, HandleFits};
ghost use Rattle.leveldb_base.specs.KeyTypes.{user_part};
ghost use Rattle.leveldb_base.specs.Types.{Pair};
ghost use Rattle.leveldb_base.specs.declared.cmp.internal.InternalKeyCmp.{InternalKeyCmp};
ghost use Rattle.leveldb_env.specs.Compressor.{Codings, Decodes};
ghost use Rattle.leveldb_env.specs.FilterBlock.{passes};
ghost use Rattle.leveldb_table.specs.Table.{Part, HasTableBlocks, IsTable, AllPass, DecodesOne, OneTable, index_pair, filter_key, named_part};
ghost use Rattle.leveldb_table.specs.TableLaws.{TablesByMore};
ghost use Rattle.leveldb_table.specs.TableBuilder.{MatchesByUser, SeparatesUsers};
ghost use Rattle.leveldb_table.specs.TableReader.{HasIndex, OpensAs, CanOpen, HasParts, HandlesFit, KeepsUsersTogether, HasNoneFrom, pairs_in};
ghost use Rattle.leveldb_base.specs.Varint.{little};
ghost use Rattle.leveldb_table.specs.Footer.{magic, footer_bytes, ReadsFooter};
ghost use Rattle.leveldb_table.specs.declared.table_builder.footer.Footer.{Footer};
ghost use Rattle.leveldb_table.specs.BlockCache.{cache_key, NewIdsHoldNone, StayNumbered, StayHeld};

use crate::table_builder::{FULL_FOOTER_LENGTH, MAGIC_FOOTER_ENCODED, MAGIC_FOOTER_NUMBER};
use leveldb_base::cmp::{Cmp, InternalKeyCmp, UserCmp};

/// What a file is opened as is what it is, with its filters or without: the index has a line for
/// each data block, and the footer's handles are its own. The data blocks hold the table's pairs,
/// and filters that are read under a policy's name let pass what the policy must find, where it is
/// known what the name means.
pub fn opened_tables_are_theirs()
    ensures lines { (codings : Codings) (cmp : List ℕ → List ℕ → Ordering) (key bytes : List ℕ)
        (lines : List Pair) (meta index : Handle) (filters : Option (List (List ℕ)))
        (parts : List Part) (metas : List Pair) (other_meta other_index : Handle)
        → OpensAs codings cmp key bytes (length bytes) lines meta index filters
        → HasTableBlocks (Decodes codings) cmp bytes parts metas other_meta other_index
        → (lines ≡ map index_pair parts) × (meta ≡ other_meta) × (index ≡ other_index)
        × HandlesFit parts }
    ensures index { (codings : Codings) (cmp : List ℕ → List ℕ → Ordering) (bytes : List ℕ)
        (lines : List Pair) (meta index : Handle)
        (parts : List Part) (metas : List Pair) (other_meta other_index : Handle)
        → HasIndex codings cmp bytes (length bytes) lines meta index
        → HasTableBlocks (Decodes codings) cmp bytes parts metas other_meta other_index
        → (lines ≡ map index_pair parts) × (meta ≡ other_meta) × (index ≡ other_index)
        × HandlesFit parts }
    ensures parts { (codings : Codings) (accepts : List ℕ → Bool)
        (cmp : List ℕ → List ℕ → Ordering)
        (meaning : List ℕ → Option (List ℕ → List ℕ → Bool)) (user : List ℕ → List ℕ)
        (bytes : List ℕ) (pairs : List Pair)
        → (table : IsTable (Decodes codings) accepts cmp meaning user bytes pairs)
        → HasParts codings accepts cmp bytes table.parts × (pairs ≡ pairs_in table.parts) }
    ensures filters { (codings : Codings) (accepts : List ℕ → Bool)
        (cmp : List ℕ → List ℕ → Ordering)
        (meaning : List ℕ → Option (List ℕ → List ℕ → Bool)) (matches : List ℕ → List ℕ → Bool)
        (user : List ℕ → List ℕ) (name bytes : List ℕ) (pairs lines : List Pair)
        (meta index : Handle) (filters : Option (List (List ℕ)))
        → OpensAs codings cmp (filter_key name) bytes (length bytes) lines meta index filters
        → (table : IsTable (Decodes codings) accepts cmp meaning user bytes pairs)
        → meaning name ≡ Some matches
        → IfSome filters (λ texts. AllPass matches user texts table.parts) }
{}

/// A table can be opened under each policy whose name's meaning is known, and without its filters
/// whatever these and its metaindex are, so opening it fails for no damage.
pub fn tables_can_be_opened()
    ensures index { (codings : Codings) (cmp : List ℕ → List ℕ → Ordering) (bytes : List ℕ)
        (parts : List Part) (metas : List Pair) (meta index : Handle)
        → HasTableBlocks (Decodes codings) cmp bytes parts metas meta index
        → HasIndex codings cmp bytes (length bytes) (map index_pair parts) meta index }
    ensures filters { (codings : Codings) (accepts : List ℕ → Bool)
        (cmp : List ℕ → List ℕ → Ordering)
        (meaning : List ℕ → Option (List ℕ → List ℕ → Bool)) (matches : List ℕ → List ℕ → Bool)
        (user : List ℕ → List ℕ) (name bytes : List ℕ) (pairs : List Pair)
        → (table : IsTable (Decodes codings) accepts cmp meaning user bytes pairs)
        → meaning name ≡ Some matches → CanOpen codings cmp matches user name bytes table.parts }
{}

/// A file is a table of one list of pairs, since stored bytes are decoded to one block.
pub fn tables_have_one_list()
    ensures list { (codings : Codings) (cmp : List ℕ → List ℕ → Ordering)
        → OneTable (Decodes codings) cmp }
    ensures decoded { (codings : Codings) → DecodesOne (Decodes codings) }
{}

/// A table by some compressors is one by compressors that decode more.
pub fn more_compressors_keep_tables()
    ensures { (codings more : Codings) → TablesByMore (Decodes codings) (Decodes more) }
{}

/// Where the filters rule out a key at the data block that the index names for it, no pair at or
/// after the key has the key's user's key: filters go by users' keys, each of them lets its
/// blocks' keys pass, and the order keeps a user's key together.
pub fn excluded_keys_are_not_there<C: Cmp>(_cmp: &C)
    ensures { (c : C) (codings : Codings) (user : List ℕ → List ℕ)
        (matches : List ℕ → List ℕ → Bool) (filters : List (List ℕ)) (bytes : List ℕ)
        (parts : List Part) (key : List ℕ) (part : Part)
        → KeepsUsersTogether (C.accepts c) (C.cmp c) user → MatchesByUser user matches
        → HasParts codings (C.accepts c) (C.cmp c) bytes parts
        → AllPass matches user filters parts → C.accepts c key ≡ true
        → named_part (C.cmp c) key parts ≡ Some part
        → passes matches filters part.handle.offset key ≡ false
        → HasNoneFrom (C.cmp c) user key (pairs_in parts) }
{}

/// An order that distinguishes all keys has no other key between a key and itself.
pub fn raw_keys_stand_together<C: UserCmp>(_cmp: &C)
    ensures { (c : C) → KeepsUsersTogether (C.accepts c) (C.cmp c) (λ key. key) }
{}

/// Internal keys of one user's key are together.
pub fn internal_keys_stand_together<C: UserCmp>(_cmp: &InternalKeyCmp<C>)
    ensures { (c : InternalKeyCmp C) → KeepsUsersTogether (⟦<InternalKeyCmp<C> as Cmp>⟧.accepts c)
        (⟦<InternalKeyCmp<C> as Cmp>⟧.cmp c) user_part }
{}

/// Where filters go by whole keys, a separator is no key at or after the second one.
pub fn raw_keys_are_separated<C: Cmp>(_cmp: &C)
    ensures { (c : C) → SeparatesUsers (C.accepts c) (C.cmp c) (C.shortest_sep c) (λ key. key) }
{}

/// Where filters go by the user's part of an internal key, a separator has the user's key of no
/// key at or after the second one, unless the first key has it too.
pub fn internal_keys_are_separated<C: UserCmp>(_cmp: &InternalKeyCmp<C>)
    ensures { (c : InternalKeyCmp C) → SeparatesUsers (⟦<InternalKeyCmp<C> as Cmp>⟧.accepts c)
        (⟦<InternalKeyCmp<C> as Cmp>⟧.cmp c)
        (⟦<InternalKeyCmp<C> as Cmp>⟧.shortest_sep c) user_part }
{}

/// A footer's bytes have one reading.
#[tactic(auto, using(crate::proofs::FooterLemmas::one_footer))]
pub fn footers_have_one_reading()
    ensures { (meta index other_meta other_index : Handle)
        → footer_bytes meta index ≡ footer_bytes other_meta other_index
        → (meta ≡ other_meta) × (index ≡ other_index) }
{}

/// What was written is read: a reader that keeps the contract of `decode` returns the footer that
/// was put.
#[tactic(auto, using(crate::proofs::FooterLemmas::read_footer))]
pub fn written_footer_is_read()
    ensures { (footer : Footer) (answer : Option Footer) → HandleFits footer.meta_index
        → HandleFits footer.index → ReadsFooter (footer_bytes footer.meta_index footer.index)
        answer → answer ≡ Some footer }
{}

/// The magic bytes are those of the number, the lowest first, and each footer has 48 bytes.
#[tactic(auto, using(crate::proofs::FooterLemmas::footer_lengths))]
pub fn footers_end_in_the_number()
    ensures number { little 8 MAGIC_FOOTER_NUMBER ≡ MAGIC_FOOTER_ENCODED }
    ensures bytes { MAGIC_FOOTER_ENCODED ≡ magic }
    ensures whole { (meta index : Handle) → HandleFits meta → HandleFits index
        → length (footer_bytes meta index) ≡ FULL_FOOTER_LENGTH }
{}

/// Each block of each table has a key of its own in a cache.
pub fn cache_keys_are_distinct()
    ensures { (id offset other other_offset : ℕ) → id < 2 ^ 64 → offset < 2 ^ 64 → other < 2 ^ 64
        → other_offset < 2 ^ 64 → cache_key id offset ≡ cache_key other other_offset
        → (id ≡ other) × (offset ≡ other_offset) }
{}

/// Under a number that a cache has not given yet it holds nothing, so a table that gets the next
/// number finds no other table's blocks there; and what a table gathers afterwards leaves that so,
/// and what is held under each other number.
pub fn new_tables_hold_none<C: Cmp>()
    ensures none { NewIdsHoldNone C.Cmp }
    ensures numbered { StayNumbered C }
    ensures held { StayHeld C.Cmp }
{}
