//! What no clause says of `jc_types`.
use jc_rules::{Items, Place, Refusal, Rule, Text, WantOfMemory};
use jc_types::*;
use std::alloc::Global;
use std::test::Fail;

const NOWHERE: Place = Place { file: 0, at: 0 };

fn untyped(alloc: Global) -> WrittenTypes {
    WrittenTypes {
        types: Items::new(alloc),
        places: Items::new(alloc),
    }
}

fn one_type(alloc: Global, ty: Ty) -> Result<WrittenTypes, WantOfMemory> {
    let mut types = Items::new(alloc);
    types.push(ty)?;
    Ok(WrittenTypes {
        types,
        places: Items::new(alloc),
    })
}

fn plain_class(alloc: Global, id: u64) -> Ty {
    Ty::Class {
        id: ClassId(id),
        args: Items::new(alloc),
    }
}

fn list_of(alloc: Global, arg: Arg) -> Result<Ty, WantOfMemory> {
    let mut args = Items::new(alloc);
    args.push(arg)?;
    Ok(Ty::Class {
        id: ClassId(1),
        args,
    })
}

fn class(alloc: Global, name: &str, vars: Items<VarId>) -> Result<ClassDecl, WantOfMemory> {
    Ok(ClassDecl {
        place: NOWHERE,
        name: Text::copied(alloc, name)?,
        binary: Text::copied(alloc, name)?,
        package: Text::empty(),
        outer: None,
        members: Items::new(alloc),
        scope: ScopeId(0),
        modifiers: Modifiers {
            access: Access::Public,
            is_abstract: false,
            is_static: false,
            is_final: false,
            is_native: false,
            is_transient: false,
            is_volatile: false,
            says_override: false,
        },
        kind: Kind::Class,
        vars,
        supers: untyped(alloc),
        methods: Items::new(alloc),
        fields: Items::new(alloc),
    })
}

fn variable(alloc: Global, bound: Ty) -> Result<VariableDecl, WantOfMemory> {
    Ok(VariableDecl {
        place: NOWHERE,
        name: Text::copied(alloc, "T")?,
        owner: Owner::Class(ClassId(1)),
        bounds: one_type(alloc, bound)?,
    })
}

// Object, and `List<T extends Number[]>` beside `Number`; the second variable has the first as its bound.
fn small_table(alloc: Global) -> Result<Table, WantOfMemory> {
    let mut vars = Items::new(alloc);
    vars.push(VarId(0))?;
    let mut classes = Items::new(alloc);
    classes.push(class(alloc, "Object", Items::new(alloc))?)?;
    classes.push(class(alloc, "List", vars)?)?;
    classes.push(class(alloc, "Number", Items::new(alloc))?)?;
    let mut variables = Items::new(alloc);
    let numbers = array_over(alloc, plain_class(alloc, 2), 0)?;
    variables.push(variable(alloc, numbers)?)?;
    variables.push(variable(alloc, Ty::Variable(VarId(0)))?)?;
    let mut index = Names::new(alloc);
    index_three(alloc, &mut index)?;
    Ok(Table {
        classes,
        methods: Items::new(alloc),
        fields: Items::new(alloc),
        variables,
        scopes: Items::new(alloc),
        uses: Items::new(alloc),
        index,
    })
}

fn index_three(alloc: Global, index: &mut Names) -> Result<(), WantOfMemory> {
    index_one(alloc, index, "Object", 0)?;
    index_one(alloc, index, "List", 1)?;
    index_one(alloc, index, "Number", 2)
}

fn index_one(alloc: Global, index: &mut Names, name: &str, place: u64) -> Result<(), WantOfMemory> {
    if index.find(name).is_none() {
        index.add(String::from_str(alloc, name)?, place)?;
    }
    Ok(())
}

#[test]
fn erasure_goes_to_the_leftmost_bound(rt: HostRuntime) -> Result<(), Fail> {
    let alloc = rt.alloc();
    let table = small_table(alloc)?;
    let env = Env {
        bounds: Items::new(alloc),
    };
    let array = array_over(alloc, Ty::Variable(VarId(1)), 0)?;
    let erased = erasure(&table, &env, &array);
    assert!(rt; erased.base == Base::Class(ClassId(2)) && erased.dims == 2);
    let list = list_of(alloc, Arg::Any)?;
    assert!(rt; erasure(&table, &env, &list).base == Base::Class(ClassId(1)));
    Ok(())
}

#[test]
fn only_unbounded_arguments_are_reifiable(rt: HostRuntime) -> Result<(), Fail> {
    let alloc = rt.alloc();
    let table = small_table(alloc)?;
    assert!(rt; reifiable(&table, &list_of(alloc, Arg::Any)?));
    assert!(rt; reifiable(&table, &Ty::Raw { id: ClassId(1) }));
    assert!(rt;
        !reifiable(
            &table,
            &list_of(alloc, Arg::Extends(plain_class(alloc, 0)))?
        )
    );
    assert!(rt; !reifiable(&table, &Ty::Variable(VarId(0))));
    Ok(())
}

#[test]
fn substitution_reaches_arguments(rt: HostRuntime) -> Result<(), Fail> {
    let alloc = rt.alloc();
    let list = list_of(alloc, Arg::Extends(Ty::Variable(VarId(0))))?;
    let number = plain_class(alloc, 2);
    let put = substitute(alloc, &list, &[VarId(0)], std::slice::from_ref(&number))?;
    let wanted = list_of(alloc, Arg::Extends(plain_class(alloc, 2)))?;
    assert!(rt; same_type(&put, &wanted) && !same_type(&put, &list));
    assert!(rt; size(&put) == 3);
    let copy = copy_type(alloc, &put)?;
    assert!(rt; same_type(&copy, &put));
    Ok(())
}

#[test]
fn classes_are_found_by_name(rt: HostRuntime) -> Result<(), Fail> {
    let alloc = rt.alloc();
    let table = small_table(alloc)?;
    assert!(rt; class_named(&table, "Number") == ClassId(2));
    assert!(rt; class_named(&table, "Other") == ClassId(0));
    assert!(rt; class_vars(&table, ClassId(1)).len() == 1);
    assert!(rt; declared_bounds(&table, VarId(1)).len() == 1);
    Ok(())
}

fn refusal(number: u16, at: u32) -> Option<Refusal> {
    let rule = Rule::from_number(number)?;
    Some(Refusal {
        rule,
        place: Place { file: 1, at },
        have: 0,
    })
}

#[test]
fn the_sooner_break_is_kept(rt: HostRuntime) -> Result<(), Fail> {
    assert!(rt; sooner(refusal(302, 9), refusal(305, 4)) == refusal(305, 4));
    assert!(rt; sooner(refusal(303, 4), refusal(302, 4)) == refusal(302, 4));
    assert!(rt; sooner(None, None) == None);
    Ok(())
}
