//! Methods by name and descriptor (JVMS 5.4.3.3).
ghost use Rattle.std.specs.Prelude.{◌≡◌, position};
ghost use Rattle.jc_jvm.specs.Classes.{is_method, is_static_method, methods_of, method_of as method_by_name, initialiser_of};

use jc_class_out::{ClassModel, MethodModel};
use jc_heap::{NamedClasses, has_flag, spells, superclass};

fn is_named(name: &[u16], descriptor: &[u16], method: &MethodModel) -> bool
    ensures { result ≡ is_method name.now descriptor.now method.now }
{
    method.name.slice() == name && method.descriptor.slice() == descriptor
}

/// Whether a method is static.
pub fn is_static(method: &MethodModel) -> bool
    ensures { result ≡ is_static_method method.now }
{
    has_flag(8, method.flags)
}

/// The methods of a class.
pub fn methods_in(classes: &[ClassModel], class: u64) -> &[MethodModel]
    ensures { result.now ≡ methods_of classes.now class }
{
    match classes.get(class as usize) {
        Some(model) => model.methods.slice(),
        None => &[],
    }
}

fn place_named(methods: &[MethodModel], name: &[u16], descriptor: &[u16]) -> Option<usize>
    ensures { result ≡ position (is_method name.now descriptor.now) methods.now }
{
    methods
        .iter()
        .position(|method| is_named(name, descriptor, method))
}

/// The method of that name and descriptor in a class or else in its superclasses, by the numbers of the class and of the method.
pub fn find_method(
    classes: &NamedClasses,
    class: u64,
    name: &[u16],
    descriptor: &[u16],
) -> Option<(u64, u64)>
    ensures { result ≡ method_by_name classes.now name.now descriptor.now class }
{
    let mut here = Some(class);
    for done in 0..classes.len() {
        match here {
            Some(number) => match place_named(
                methods_in(classes.models(), number),
                name,
                descriptor,
            ) {
                Some(place) => return Some((number, place as u64)),
                None => here = superclass(classes, number),
            },
            None => return None,
        }
    }
    None
}

/// The initialiser of a class.
pub fn find_initialiser(classes: &[ClassModel], class: u64) -> Option<usize>
    ensures { result ≡ initialiser_of classes.now class }
{
    methods_in(classes, class).iter().position(|method| {
        spells(method.name.slice(), "<clinit>")
            && spells(method.descriptor.slice(), "()V")
            && is_static(method)
    })
}
