//! Methods and constructors of classes, each with its id.

ghost use Rattle.std.specs.Prelude.{◌≡◌, ◌<◌, length, Some, IfSome, option_map};
ghost use Rattle.std.specs.List.{All, slice_get};
ghost use Rattle.jesc_references.specs.Known as spec;
ghost use Rattle.jesc_sites.specs.Sites.{IsSetting, IsType, setting};

use jesc_sites::Site;
use jesc_tree::{ClassId, Method, MethodId};

/// The method of that id. Takes no memory.
pub fn method_entry<'a>(site: &Site<'a>, method: MethodId) -> &'a Method
    requires setting { IsSetting (setting site.now) }
    requires method { method.0 < length (setting site.now).methods }
    ensures found { slice_get (setting site.now).methods method.0 ≡ Some result.now }
    ensures within { IsType (setting site.now) result.now.result }
{
    &site.names.program.methods()[method.0 as usize]
}

/// The method that the name means in the class for so many arguments. Takes no memory.
pub fn method_in<'a>(
    site: &Site<'a>,
    class: ClassId,
    name: &[u8],
    count: usize,
) -> Option<(MethodId, &'a Method)>
    requires setting { IsSetting (setting site.now) }
    requires class { class.0 < length (setting site.now).classes }
    ensures found { option_map (λ m. (m.0.0, m.1.now)) result ≡ spec.method_in (setting site.now) class.0 name.now count }
    ensures within { IfSome result (λ m. IsType (setting site.now) m.1.now.result) }
{
    match site.names.method(class, name, count) {
        Some(id) => Some((id, method_entry(site, id))),
        None => None,
    }
}

/// The class's own constructor for so many arguments. Takes no memory.
pub fn constructor_in<'a>(
    site: &Site<'a>,
    class: ClassId,
    count: usize,
) -> Option<(MethodId, &'a Method)>
    requires setting { IsSetting (setting site.now) }
    requires class { class.0 < length (setting site.now).classes }
    ensures found { option_map (λ m. (m.0.0, m.1.now)) result ≡ spec.constructor_in (setting site.now) class.0 count }
{
    match site.names.constructor(class, count) {
        Some(id) => Some((id, method_entry(site, id))),
        None => None,
    }
}
