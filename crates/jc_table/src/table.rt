//! All declarations of a program together.
ghost use Rattle.std.specs.Prelude.{◌≡◌, ◌++◌, [], IfOk, OnOk};
ghost use Rattle.jc_declares.specs.Making.{table_with};
ghost use Rattle.jc_groups.specs.Members.{AreMembers};
ghost use Rattle.jc_looking.specs.Members.{known_in};
ghost use Rattle.jc_looking.specs.Scenes.{IsScene};
ghost use Rattle.jc_sites.specs.Joining.{sites_seen};
ghost use Rattle.jc_table.specs.Filling.{with_declarations};

use crate::classes::push_classes;
use jc_declared::{push_fields, push_methods, push_uses, push_variables};
use jc_groups::{Members, members_of};
use jc_looking::Scene;
use jc_rules::{Items, WantOfMemory};
use jc_scopes::{index_of_classes, push_scopes};
use jc_sites::Sites;
use jc_types::{Names, Table};
use std::alloc::Global;

/// A table without declarations, but for its index.
fn table_of_names(alloc: Global, index: Names) -> Table
    ensures { result ≡ record { classes = []; methods = []; fields = []; variables = []; scopes = []; uses = []; index = index } }
{
    Table {
        classes: Items::new(alloc),
        methods: Items::new(alloc),
        fields: Items::new(alloc),
        variables: Items::new(alloc),
        scopes: Items::new(alloc),
        uses: Items::new(alloc),
        index,
    }
}

/// Adds all declarations.
fn fill(
    alloc: Global,
    table: &mut Table,
    scene: &Scene,
    members: &Members,
    sites: &Sites,
) -> Result<(), WantOfMemory>
    requires scene { IsScene scene.now.declared.heads.now scene.now.declared.index.now scene.now.imports.now }
    requires members { AreMembers scene.now.declared.heads.now members.now }
    ensures { let H = scene.now.declared.heads.now in let K = known_in scene.now.known.now in OnOk result (table.new ≡ with_declarations (sites_seen sites.now) H K table.old) }
{
    push_classes(
        alloc,
        &mut table.classes,
        scene,
        members,
        sites.classes.slice(),
    )?;
    push_methods(
        alloc,
        &mut table.methods,
        scene,
        members,
        sites.methods.slice(),
    )?;
    push_fields(alloc, &mut table.fields, scene, sites.fields.slice())?;
    push_variables(alloc, &mut table.variables, scene, sites.variables.slice())?;
    push_scopes(alloc, &mut table.scopes, scene, members)?;
    push_uses(alloc, &mut table.uses, scene, sites.uses.slice())?;
    Ok(())
}

/// The table of these declarations, where this is known of their classes.
pub fn table_with(alloc: Global, scene: &Scene, sites: &Sites) -> Result<Table, WantOfMemory>
    requires { IsScene scene.now.declared.heads.now scene.now.declared.index.now scene.now.imports.now }
    ensures { let H = scene.now.declared.heads.now in let K = known_in scene.now.known.now in IfOk result (λ it. it ≡ table_with (sites_seen sites.now) H K) }
{
    let members = members_of(alloc, scene.declared.heads)?;
    let index = index_of_classes(alloc, scene.declared.heads)?;
    let mut table = table_of_names(alloc, index);
    fill(alloc, &mut table, scene, &members, sites)?;
    Ok(table)
}
