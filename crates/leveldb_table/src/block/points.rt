//! The restart points of a block, and the halving over them.
// LevelDB: table/block.cc, Block::Iter::Seek
ghost use Rattle.std.specs.Prelude.{◌≡◌, ◌<◌, length, slice_index};
ghost use Rattle.leveldb_table.specs.Block.{restart_points};
ghost use Rattle.leveldb_table.specs.BlockWalk.{IsRestartPoint, HasKeyAt, CanSeekFrom};

use crate::block::Block;
use crate::block::entry::take_entry;
use byteorder::{ByteOrder, LittleEndian};
use leveldb_base::cmp::Cmp;

impl<C: Cmp> Block<C> {
    // How many restart points there are.
    #[inline]
    fn point_count(&self) -> usize
        ensures count { result ≡ length (restart_points self.now.entries) }
        ensures some { 0 < result }
        ensures first { slice_index (restart_points self.now.entries) 0 ≡ 0 }
    {
        (self.contents.len() - 4 - self.limit) / 4
    }

    // The offset of a restart point.
    #[inline]
    fn point(&self, index: usize) -> usize
        requires { index < length (restart_points self.now.entries) }
        ensures { result ≡ slice_index (restart_points self.now.entries) index }
    {
        LittleEndian::read_u32(&self.contents.as_slice()[self.limit + 4 * index..]) as usize
    }

    // The key at a restart point.
    #[inline]
    fn point_key(&self, index: usize) -> &[u8]
        requires some { 0 < length self.now.entries }
        requires index { index < length (restart_points self.now.entries) }
        ensures { HasKeyAt self.now.entries
            (slice_index (restart_points self.now.entries) index) result.now }
    {
        let start = self.point(index);
        let (entry, _) = take_entry(&self.contents.as_slice()[start..self.limit]).unwrap();
        entry.rest
    }

    /// The last restart point.
    pub(crate) fn last_point(&self) -> usize
        ensures { IsRestartPoint self.now.entries result }
    {
        self.point(self.point_count() - 1)
    }

    /// The last restart point before `offset`.
    pub(crate) fn point_before(&self, offset: usize) -> usize
        requires { 0 < offset }
        ensures point { IsRestartPoint self.now.entries result }
        ensures before { result < offset }
    {
        let mut left = 0;
        let mut right = self.point_count() - 1;
        while left < right {
            let middle = right - (right - left) / 2;
            if self.point(middle) < offset {
                left = middle;
            } else {
                right = middle - 1;
            }
        }
        self.point(left)
    }

    /// The last restart point whose key is before `key`, or the first.
    pub(crate) fn point_before_key(&self, key: &[u8]) -> usize
        ensures point { IsRestartPoint self.now.entries result }
        ensures before { CanSeekFrom (C.cmp self.now.cmp) self.now.entries key.now result }
    {
        if !self.accepted || !self.cmp.accepts(key) {
            return 0;
        }
        let mut left = 0;
        let mut right = self.point_count() - 1;
        while left < right {
            let middle = right - (right - left) / 2;
            if self.cmp.cmp(self.point_key(middle), key).is_lt() {
                left = middle;
            } else {
                right = middle - 1;
            }
        }
        self.point(left)
    }
}
