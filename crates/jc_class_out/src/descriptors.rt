//! Descriptors of fields and methods (JVMS 4.3).
ghost use Rattle.std.specs.Prelude.{◌≡◌, ◌+◌, ◌≤◌, MatchOption, None, Some, true, false, length};
ghost use Rattle.jc_class_out.specs.Descriptors.{is_base, name_end, type_end, is_field_descriptor, units_of_type, parameters_on, is_result, parameter_units, is_method_descriptor};

fn base(unit: u16) -> bool
    ensures { result ≡ is_base unit }
{
    unit == 66 || unit == 67 || unit == 73 || unit == 74 || unit == 83 || unit == 90
}

/// What stands behind the `;` of a class name.
#[tactic(auto, unfolding(crate::specs::Descriptors::name_end))]
fn behind_name(units: &[u16]) -> Option<&[u16]>
    ensures { MatchOption result (name_end true units.now ≡ None) (λ rest. name_end true units.now ≡ Some rest.now) }
{
    let mut begins = true;
    let mut rest = units;
    for _ in 0..units.len() {
        match rest {
            [] => return None,
            [unit, behind @ ..] => {
                let unit = *unit;
                if unit == 59 {
                    if begins {
                        return None;
                    }
                    return Some(behind);
                }
                if (unit == 47 && begins) || unit == 46 || unit == 91 {
                    return None;
                }
                begins = unit == 47;
                rest = behind;
            }
        }
    }
    None
}

/// What stands behind a type.
#[tactic(auto, unfolding(crate::specs::Descriptors::type_end))]
pub fn behind_type(units: &[u16]) -> Option<&[u16]>
    ensures { MatchOption result (type_end 0 units.now ≡ None) (λ rest. type_end 0 units.now ≡ Some rest.now) }
{
    let mut rest = units;
    for dims in 0..units.len() {
        match rest {
            [] => return None,
            [unit, behind @ ..] => {
                let unit = *unit;
                if base(unit) {
                    return Some(behind);
                }
                if unit == 76 {
                    return behind_name(behind);
                }
                if unit != 91 || dims >= 255 {
                    return None;
                }
                rest = behind;
            }
        }
    }
    None
}

/// Whether the text is a descriptor of a field (JVMS 4.3.2), of a type that the profile has.
pub fn field_descriptor(units: &[u16]) -> bool
    ensures { result ≡ is_field_descriptor units.now }
{
    match behind_type(units) {
        None => false,
        Some(rest) => rest.is_empty(),
    }
}

fn type_units(unit: u16) -> u16
    ensures value { result ≡ units_of_type unit }
    ensures few { result ≤ 2 }
{
    if unit == 74 { 2 } else { 1 }
}

fn result_descriptor(units: &[u16]) -> bool
    ensures { result ≡ is_result units.now }
{
    matches!(units, [86]) || field_descriptor(units)
}

/// The units of the parameters, and what stands behind the `)`.
#[tactic(auto, unfolding(crate::specs::Descriptors::parameters_on))]
fn parameters(units: &[u16]) -> Option<(u16, &[u16])>
    ensures cases { MatchOption result (parameters_on (length units.now) 0 units.now ≡ None) (λ p. parameters_on (length units.now) 0 units.now ≡ Some (p.0, p.1.now)) }
{
    let mut used = 0;
    let mut rest = units;
    for _ in 0..units.len() {
        match rest {
            [] => return None,
            [unit, behind @ ..] => {
                let unit = *unit;
                if unit == 41 {
                    return Some((used, behind));
                }
                if used + type_units(unit) > 255 {
                    return None;
                }
                match behind_type(rest) {
                    None => return None,
                    Some(after) => {
                        used += type_units(unit);
                        rest = after;
                    }
                }
            }
        }
    }
    None
}

/// The units of the parameters of a method's descriptor (JVMS 4.3.3), of which a long takes two; none where the text is no
/// such descriptor.
#[tactic(auto, unfolding(crate::specs::Descriptors::parameter_units))]
pub fn units_of_parameters(units: &[u16]) -> Option<u16>
    ensures { result ≡ parameter_units units.now }
{
    match units {
        [40, behind @ ..] => match parameters(behind) {
            Some((used, rest)) if result_descriptor(rest) => Some(used),
            _ => None,
        },
        _ => None,
    }
}

/// Whether the text is a descriptor of a method.
pub fn method_descriptor(units: &[u16]) -> bool
    ensures { result ≡ is_method_descriptor units.now }
{
    units_of_parameters(units).is_some()
}
