//! The maps of classes, each made of its superclass's map and its own methods.
ghost use Rattle.std.specs.Prelude.{◌≡◌, ◌<◌, ℕ, List, Option, None, Some, IfOk, IfSome, OnOk, length};
ghost use Rattle.jc_selecting.specs.Found.{AreTables, IsTable, or_else, own_found, parent_of};
ghost use Rattle.jc_selecting.specs.Held.{content, held};

use crate::SharedMap;
use crate::walk::{parent_at, row_at};
use jc_rules::{Items, WantOfMemory};
use std::alloc::Global;

/// What a class selects by number, and how many classes are on its line, itself among them.
#[derive(Drop)]
pub struct Table {
    pub map: SharedMap,
    pub depth: usize,
}

// The map with a class's own methods: of those with one number the first.
fn with_own(
    alloc: Global,
    map: SharedMap,
    class: u64,
    row: &[Option<u64>],
) -> Result<SharedMap, WantOfMemory>
    ensures { IfOk result (λ new. (s : ℕ) → held (content new.root) s ≡ or_else (own_found class row.now s) (held (content map.root) s)) }
{
    let mut grown = map;
    let mut at = row.len();
    'methods: while at > 0 {
        at -= 1;
        match row[at] {
            Some(number) => grown = grown.with(alloc, number, (class, at as u64))?,
            None => (),
        }
    }
    Ok(grown)
}

// The classes from one on upward that weren't come to before.
fn climb(
    alloc: Global,
    parents: &[Option<u64>],
    entered: &mut Vec<bool>,
    class: u64,
) -> Result<Vec<u64>, WantOfMemory> {
    let mut path = Vec::new(alloc);
    let mut here = Some(class);
    for steps in 0..parents.len() {
        match here {
            Some(k) => match entered.get_mut(k as usize) {
                Some(mark) => {
                    if *mark {
                        return Ok(path);
                    }
                    *mark = true;
                    path.push(k)?;
                    here = parent_at(parents, k);
                }
                None => return Ok(path),
            },
            None => return Ok(path),
        }
    }
    Ok(path)
}

// The table from a class on: empty where there is no class, none where its map isn't known.
fn begun(
    tables: &[Option<Table>],
    parents: &[Option<u64>],
    own: &[Items<Option<u64>>],
    here: Option<u64>,
) -> Result<Option<Table>, WantOfMemory>
    requires { AreTables parents.now own.now tables.now }
    ensures { IfOk result (λ table. IfSome table (λ t. IsTable parents.now own.now here t.map t.depth)) }
{
    match here {
        Some(class) => match tables.get(class as usize) {
            Some(Some(table)) => Ok(Some(Table {
                map: table.map.share()?,
                depth: table.depth,
            })),
            _ => Ok(None),
        },
        None => Ok(Some(Table {
            map: SharedMap::new(),
            depth: 0,
        })),
    }
}

// The table of a class, from the one of its superclass.
fn made(
    alloc: Global,
    own: &[Items<Option<u64>>],
    above: Table,
    class: u64,
    parents: &[Option<u64>],
) -> Result<Table, WantOfMemory>
    requires within { above.depth < length parents.now }
    requires above { IsTable parents.now own.now (parent_of parents.now class) above.map above.depth }
    ensures { IfOk result (λ t. IsTable parents.now own.now (Some class) t.map t.depth) }
{
    let Table { map, depth } = above;
    let map = with_own(alloc, map, class, row_at(own, class))?;
    Ok(Table {
        map,
        depth: depth + 1,
    })
}

// Puts a table down for a class.
fn keep(tables: &mut Vec<Option<Table>>, class: u64, table: Table)
    ensures { (parents : List (Option ℕ)) (own : List (List (Option ℕ))) → IsTable parents own (Some class) table.map table.depth → AreTables parents own tables.old.items → AreTables parents own tables.new.items }
{
    if (class as usize) < tables.len() {
        tables[class as usize] = Some(table);
    }
}

// Finds the table of a class whose superclass has one, or who has none.
fn grow(
    alloc: Global,
    parents: &[Option<u64>],
    own: &[Items<Option<u64>>],
    tables: &mut Vec<Option<Table>>,
    class: u64,
) -> Result<(), WantOfMemory>
    requires { AreTables parents.now own.now tables.old.items }
    ensures { OnOk result (AreTables parents.now own.now tables.new.items) }
{
    let above = begun(tables.as_slice(), parents, own, parent_at(parents, class))?;
    match above {
        Some(above) => {
            if above.depth < parents.len() {
                keep(tables, class, made(alloc, own, above, class, parents)?);
            }
            Ok(())
        }
        None => Ok(()),
    }
}

// The same for these classes, from the last on.
fn descend(
    alloc: Global,
    parents: &[Option<u64>],
    own: &[Items<Option<u64>>],
    tables: &mut Vec<Option<Table>>,
    path: Vec<u64>,
) -> Result<(), WantOfMemory>
    requires { AreTables parents.now own.now tables.old.items }
    ensures { OnOk result (AreTables parents.now own.now tables.new.items) }
{
    let mut left = path;
    'classes: while let Some(class) = left.pop() {
        grow(alloc, parents, own, tables, class)?;
    }
    Ok(())
}

fn no_tables(alloc: Global, count: usize) -> Result<Vec<Option<Table>>, WantOfMemory>
    ensures { IfOk result (λ tables. (parents : List (Option ℕ)) (own : List (List (Option ℕ))) → AreTables parents own tables.items) }
{
    let mut tables = Vec::with_capacity(alloc, count)?;
    for made in 0..count {
        tables.push(None)?;
    }
    Ok(tables)
}

fn no_marks(alloc: Global, count: usize) -> Result<Vec<bool>, WantOfMemory> {
    let mut marks = Vec::with_capacity(alloc, count)?;
    for made in 0..count {
        marks.push(false)?;
    }
    Ok(marks)
}

/// A table for each class, save those that are among their own superclasses or below such a class.
pub fn tables_of(
    alloc: Global,
    parents: &[Option<u64>],
    own: &[Items<Option<u64>>],
) -> Result<Vec<Option<Table>>, WantOfMemory>
    ensures { IfOk result (λ tables. AreTables parents.now own.now tables.items) }
{
    let mut tables = no_tables(alloc, parents.len())?;
    let mut entered = no_marks(alloc, parents.len())?;
    for class in 0..parents.len() {
        let path = climb(alloc, parents, &mut entered, class as u64)?;
        descend(alloc, parents, own, &mut tables, path)?;
    }
    Ok(tables)
}
