//! What no clause says of `jc_wellformed`.
use jc_rules::{Items, Stop, WantOfMemory};
use jc_sample::{library, typed};
use jc_types::{ClassId, Env, Ty};
use jc_wellformed::{TypeFault, check_type};
use std::alloc::Global;
use std::test::Fail;

// None where the type is well formed. The notation is that of `jc_sample::typed`.
fn fault_of(alloc: Global, ty: &Ty) -> Result<Option<TypeFault>, WantOfMemory> {
    let table = library(alloc)?;
    let env = Env {
        bounds: Items::new(alloc),
    };
    match check_type(alloc, &table, &env, ty) {
        Ok(()) => Ok(None),
        Err(Stop::Refused(fault)) => Ok(Some(fault)),
        Err(Stop::WantOfMemory) => Err(WantOfMemory),
    }
}

fn fault(alloc: Global, text: &[u8]) -> Result<Option<TypeFault>, WantOfMemory> {
    fault_of(alloc, &typed(alloc, text)?)
}

#[test]
fn well_formed_types(rt: HostRuntime) -> Result<(), Fail> {
    let alloc = rt.alloc();
    assert!(rt; fault(alloc, b"N+B")?.is_none() && fault(alloc, b"I-B")?.is_none());
    assert!(rt; fault(alloc, b"MF")?.is_none() && fault(alloc, b"?F")?.is_none());
    assert!(rt; fault(alloc, b"uu-Z")?.is_none() && fault(alloc, b"!B[")?.is_none());
    Ok(())
}

#[test]
fn each_fault_has_its_type(rt: HostRuntime) -> Result<(), Fail> {
    let alloc = rt.alloc();
    let bare_list = Ty::Class {
        id: ClassId(7),
        args: Items::new(alloc),
    };
    assert!(rt; fault_of(alloc, &bare_list)? == Some(TypeFault::Count));
    assert!(rt; fault(alloc, b"SB")? == Some(TypeFault::Bound { i: 0 }));
    assert!(rt; fault(alloc, b"NF")? == Some(TypeFault::Bound { i: 0 }));
    assert!(rt; fault(alloc, b"SBL[")? == Some(TypeFault::Bound { i: 0 }));
    assert!(rt; fault(alloc, b"5+L")? == Some(TypeFault::PrimitiveArgument { i: 0 }));
    assert!(rt; fault(alloc, b"S+B")? == Some(TypeFault::ClassesMeet { i: 0 }));
    assert!(rt; fault(alloc, b"IYH")? == Some(TypeFault::Deep));
    Ok(())
}

// `Constrain<U, ? super T>` of a class `Constrain<A, B extends A>`.
#[test]
fn a_super_bound_outside_the_declared_bound(rt: HostRuntime) -> Result<(), Fail> {
    let alloc = rt.alloc();
    assert!(rt; fault(alloc, b"ut-Z")? == Some(TypeFault::SuperBound { i: 1 }));
    assert!(rt; fault(alloc, b"S-B")? == Some(TypeFault::SuperBound { i: 0 }));
    Ok(())
}
