//! Walks over tables and memtables, as children of one merge.
ghost use Rattle.std.specs.Prelude.{◌≡◌, ◌++◌, All, List, IfErr, IfOk, OnOk, map};
ghost use Rattle.leveldb_base.specs.Error.{IsOutOfMemory};
ghost use Rattle.leveldb_iter.specs.declared.in_memory.InMemory.{InMemory};
ghost use Rattle.leveldb_mem.specs.MemTable.{MemTableState};
ghost use Rattle.leveldb_repair.specs.RepairSteps.{AreOverMemory};
ghost use Rattle.leveldb_repair.specs.declared.found_walk.FoundWalk.TheVariants.{Memory, Table};

use crate::found_walk::{FoundTable, FoundWalk};
use leveldb_base::cmp::UserCmp;
use leveldb_base::error::Result;
use leveldb_base::types::LdbIterator;
use leveldb_env::env::Env;
use leveldb_iter::in_memory::InMemory;
use leveldb_mem::memtable::{MemTable, MemtableIterator};
use std::alloc::Global;

// A walk over each table, and then one over each memtable.
pub(super) fn children_of<'a, E: Env, C: UserCmp + Copy + Drop>(
    alloc: Global,
    tables: Vec<FoundTable<E, C>>,
    logs: &'a [MemTable<C>],
) -> Result<Vec<FoundWalk<FoundTable<E, C>, MemtableIterator<'a, C>>>>
    ensures ok { IfOk result (λ children. (memory : List (InMemory _))
        × (children.items ≡ map Table tables.items ++ map Memory memory)
        × AreOverMemory ⟦<MemtableIterator<'a, C> as LdbIterator>⟧ C.Cmp logs.now memory) }
    ensures memory { IfErr result IsOutOfMemory }
{
    let mut children = table_walks(alloc, tables)?;
    add_memory(logs, &mut children)?;
    Ok(children)
}

// A walk over each table.
fn table_walks<'a, E: Env, C: UserCmp + Copy + Drop>(
    alloc: Global,
    tables: Vec<FoundTable<E, C>>,
) -> Result<Vec<FoundWalk<FoundTable<E, C>, MemtableIterator<'a, C>>>>
    ensures ok { IfOk result (λ children. children.items ≡ map Table tables.items) }
    ensures memory { IfErr result IsOutOfMemory }
{
    let mut children = Vec::new(alloc);
    for table in tables {
        children.push(FoundWalk::Table(table))?;
    }
    Ok(children)
}

// Appends a walk over each memtable.
fn add_memory<'a, E: Env, C: UserCmp + Copy + Drop>(
    logs: &'a [MemTable<C>],
    children: &mut Vec<FoundWalk<FoundTable<E, C>, MemtableIterator<'a, C>>>,
) -> Result<()>
    ensures ok { OnOk result ((memory : List (InMemory _))
        × (children.new.items ≡ children.old.items ++ map Memory memory)
        × AreOverMemory ⟦<MemtableIterator<'a, C> as LdbIterator>⟧ C.Cmp logs.now memory) }
    ensures memory { IfErr result IsOutOfMemory }
{
    for table in logs {
        children.push(FoundWalk::Memory(InMemory(table.iter())))?;
    }
    Ok(())
}
