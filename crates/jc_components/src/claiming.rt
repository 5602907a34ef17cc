//! Strongly connected components by two searches in depth (Kosaraju, Sharir): vertices by the time at which all that they reach was seen,
//! and then, the latest first, all that reach them. Nothing is promised of what is claimed.
use crate::claims::{Claim, UNCLAIMED};
use jc_rules::{Items, WantOfMemory};
use std::alloc::Global;

/// A vertex whose edges are being followed, and how many of them have been.
#[derive(Clone, Copy, Debug)]
struct Open {
    vertex: u64,
    followed: usize,
}

/// The first search: what it has seen, where it stands, and the vertices that it has left, in order.
#[derive(Drop)]
struct Search {
    seen: Vec<bool>,
    open: Vec<Open>,
    left: Vec<u64>,
}

fn edge(rows: &[Items<u64>], vertex: u64, number: usize) -> Option<u64> {
    rows.get(vertex as usize)?.slice().get(number).copied()
}

/// Sets a mark, and tells whether it wasn't set.
fn is_new(seen: &mut Vec<bool>, vertex: u64) -> bool {
    match seen.get_mut(vertex as usize) {
        Some(mark) => {
            let was_seen = *mark;
            *mark = true;
            !was_seen
        }
        None => false,
    }
}

fn claim_at(claims: &[Claim], vertex: u64) -> Claim {
    match claims.get(vertex as usize) {
        Some(claim) => *claim,
        None => UNCLAIMED,
    }
}

fn set_claim(claims: &mut Vec<Claim>, vertex: u64, claim: Claim) {
    if let Some(place) = claims.get_mut(vertex as usize) {
        *place = claim;
    }
}

/// Enters a vertex that is seen for the first time from another one.
fn enter(
    search: &mut Search,
    claims: &mut Vec<Claim>,
    from: u64,
    vertex: u64,
) -> Result<(), WantOfMemory> {
    if !is_new(&mut search.seen, vertex) {
        return Ok(());
    }
    let before_left = claim_at(claims.as_slice(), from)
        .before_left
        .saturating_add(1);
    let claim = claim_at(claims.as_slice(), vertex);
    set_claim(
        claims,
        vertex,
        Claim {
            before: from,
            before_left,
            ..claim
        },
    );
    search.open.push(Open {
        vertex,
        followed: 0,
    })?;
    Ok(())
}

/// Follows one edge of the vertex that was entered last, or leaves it. Tells whether the search goes on.
fn follow(
    search: &mut Search,
    claims: &mut Vec<Claim>,
    rows: &[Items<u64>],
) -> Result<bool, WantOfMemory> {
    let Some(top) = search.open.pop() else {
        return Ok(false);
    };
    match edge(rows, top.vertex, top.followed) {
        Some(to) => {
            let followed = top.followed.saturating_add(1);
            search.open.push(Open {
                vertex: top.vertex,
                followed,
            })?;
            enter(search, claims, top.vertex, to)?;
        }
        None => search.left.push(top.vertex)?,
    }
    Ok(true)
}

/// Searches from one vertex.
fn search_from(
    search: &mut Search,
    claims: &mut Vec<Claim>,
    rows: &[Items<u64>],
    vertex: u64,
) -> Result<(), WantOfMemory> {
    if !is_new(&mut search.seen, vertex) {
        return Ok(());
    }
    search.open.push(Open {
        vertex,
        followed: 0,
    })?;
    'edges: for _edge in 0..u64::MAX {
        if !follow(search, claims, rows)? {
            return Ok(());
        }
    }
    Ok(())
}

fn blank_marks(alloc: Global, count: usize) -> Result<Vec<bool>, WantOfMemory> {
    let mut marks = Vec::new(alloc);
    for _vertex in 0..count {
        marks.push(false)?;
    }
    Ok(marks)
}

fn blank_claims(alloc: Global, count: usize) -> Result<Vec<Claim>, WantOfMemory> {
    let mut claims = Vec::new(alloc);
    for _vertex in 0..count {
        claims.push(UNCLAIMED)?;
    }
    Ok(claims)
}

/// All vertices in the order in which the first search leaves them.
fn left_in_order(
    alloc: Global,
    rows: &[Items<u64>],
    claims: &mut Vec<Claim>,
) -> Result<Vec<u64>, WantOfMemory> {
    let mut search = Search {
        seen: blank_marks(alloc, rows.len())?,
        open: Vec::new(alloc),
        left: Vec::new(alloc),
    };
    for vertex in 0..rows.len() {
        search_from(&mut search, claims, rows, vertex as u64)?;
    }
    Ok(search.left)
}

fn add_back(back: &mut Vec<Vec<u64>>, from: u64, row: &[u64]) -> Result<(), WantOfMemory> {
    for to in row {
        if let Some(list) = back.get_mut(*to as usize) {
            list.push(from)?;
        }
    }
    Ok(())
}

fn blank_lists(alloc: Global, count: usize) -> Result<Vec<Vec<u64>>, WantOfMemory> {
    let mut lists = Vec::new(alloc);
    for _vertex in 0..count {
        lists.push(Vec::new(alloc))?;
    }
    Ok(lists)
}

/// The edges the other way round.
fn turned_round(alloc: Global, rows: &[Items<u64>]) -> Result<Vec<Vec<u64>>, WantOfMemory> {
    let mut back = blank_lists(alloc, rows.len())?;
    let mut from = 0u64;
    for row in rows {
        add_back(&mut back, from, row.slice())?;
        from = from.saturating_add(1);
    }
    Ok(back)
}

/// The second search: which vertices have a component, and those of the component that is being found.
#[derive(Drop)]
struct Parts {
    back: Vec<Vec<u64>>,
    seen: Vec<bool>,
    part: Vec<u64>,
}

/// Takes the vertices with an edge to one of a component into the component.
fn take_before(parts: &mut Parts, claims: &mut Vec<Claim>, to: u64) -> Result<(), WantOfMemory> {
    let Some(list) = parts.back.get(to as usize) else {
        return Ok(());
    };
    let of = claim_at(claims.as_slice(), to);
    for from in list.as_slice() {
        if is_new(&mut parts.seen, *from) {
            let claim = claim_at(claims.as_slice(), *from);
            let next_left = of.next_left.saturating_add(1);
            set_claim(
                claims,
                *from,
                Claim {
                    part: of.part,
                    root: of.root,
                    next: to,
                    next_left,
                    ..claim
                },
            );
            parts.part.push(*from)?;
        }
    }
    Ok(())
}

/// The first neighbour of a vertex that has the same root.
fn neighbour(claims: &[Claim], row: &[u64], root: u64) -> Option<u64> {
    for to in row {
        let claim = claim_at(claims, *to);
        if claim.root == root && claim.part == claim_at(claims, root).part {
            return Some(*to);
        }
    }
    None
}

fn mark_cyclic(claims: &mut Vec<Claim>, part: &[u64]) {
    for vertex in part {
        let claim = claim_at(claims.as_slice(), *vertex);
        set_claim(
            claims,
            *vertex,
            Claim {
                is_cyclic: true,
                ..claim
            },
        );
    }
}

/// Marks the vertices of a component that has a cycle, and gives its root a neighbour.
fn close(claims: &mut Vec<Claim>, rows: &[Items<u64>], part: &[u64], root: u64) {
    let Some(row) = rows.get(root as usize) else {
        return;
    };
    if let Some(next) = neighbour(claims.as_slice(), row.slice(), root) {
        let claim = claim_at(claims.as_slice(), root);
        set_claim(claims, root, Claim { next, ..claim });
        mark_cyclic(claims, part);
    }
}

/// The component of a vertex that has none yet.
fn find_part(
    parts: &mut Parts,
    claims: &mut Vec<Claim>,
    rows: &[Items<u64>],
    root: u64,
    number: u64,
) -> Result<(), WantOfMemory> {
    let claim = claim_at(claims.as_slice(), root);
    set_claim(
        claims,
        root,
        Claim {
            part: number,
            root,
            next_left: 0,
            ..claim
        },
    );
    parts.part.clear();
    parts.part.push(root)?;
    'members: for at in 0..usize::MAX {
        let Some(vertex) = parts.part.as_slice().get(at).copied() else {
            break 'members;
        };
        take_before(parts, claims, vertex)?;
    }
    close(claims, rows, parts.part.as_slice(), root);
    Ok(())
}

/// What is claimed of each vertex.
pub fn claims(alloc: Global, rows: &[Items<u64>]) -> Result<Vec<Claim>, WantOfMemory> {
    let mut claims = blank_claims(alloc, rows.len())?;
    let left = left_in_order(alloc, rows, &mut claims)?;
    let mut parts = Parts {
        back: turned_round(alloc, rows)?,
        seen: blank_marks(alloc, rows.len())?,
        part: Vec::new(alloc),
    };
    let mut number = 0u64;
    for vertex in left.as_slice().iter().rev() {
        if is_new(&mut parts.seen, *vertex) {
            number = number.saturating_add(1);
            find_part(&mut parts, &mut claims, rows, *vertex, number)?;
        }
    }
    Ok(claims)
}
