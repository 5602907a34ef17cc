//! The bytes of a class that has a class file.
ghost use Rattle.std.specs.Prelude.{◌≡◌, ◌<◌, ◌++◌, IfOk, OnOk};
ghost use Rattle.std.specs.List.{All};
ghost use Rattle.jc_class_out.specs.Format.{IsClassFile, HasClassFile};
ghost use Rattle.jc_class_out.specs.Spelling.{knowns, add, uses, pool_for, file_of};

use crate::pool::{Pool, intern, put_head};
use crate::uses::{Visitor, tell_uses};
use crate::writing::put_members;
use crate::{ClassModel, Constant};
use jc_rules::{Items, WantOfMemory};
use std::alloc::Global;

/// Gathers constants, each once.
#[derive(Drop)]
struct Gatherer<'a> {
    pool: Pool<'a>,
}

impl<'a> Visitor<'a> for Gatherer<'a> {
    type Stop = WantOfMemory;

    ghost sees = { λ s k t. knowns t.pool.keys ≡ add (knowns s.pool.keys) k };

    fn visit(&mut self, constant: Constant<'a>) -> Result<(), WantOfMemory> {
        intern(&mut self.pool, constant)
    }
}

fn pool_of(alloc: Global, class: &ClassModel) -> Result<Pool<'_>, WantOfMemory>
    ensures { IfOk result (λ p. knowns p.keys ≡ pool_for class.now) }
{
    let mut gatherer = Gatherer {
        pool: Pool::new(alloc),
    };
    tell_uses(&mut gatherer, class)?;
    let Gatherer { pool } = gatherer;
    Ok(pool)
}

#[tactic(auto, unfolding(crate::specs::Spelling::file_of))]
fn put_file(alloc: Global, out: &mut Vec<u8>, class: &ClassModel) -> Result<(), WantOfMemory>
    ensures written { OnOk result (out.new.items ≡ out.old.items ++ file_of class.now) }
    ensures bytes { OnOk result (All (λ b. b < 256) out.new.items) }
{
    let pool = pool_of(alloc, class)?;
    put_head(alloc, out, &pool)?;
    put_members(alloc, out, &pool, class)?;
    Ok(())
}

/// The bytes of a class that has a class file, as `fits` tests: each constant stands once in the pool, and each frame has its
/// shortest form.
pub fn class_bytes(alloc: Global, class: &ClassModel) -> Result<Items<u8>, WantOfMemory>
    requires { HasClassFile class.now }
    ensures { IfOk result (λ bytes. IsClassFile bytes class.now) }
{
    let mut out = Vec::new(alloc);
    put_file(alloc, &mut out, class)?;
    Ok(Items::of(out))
}
