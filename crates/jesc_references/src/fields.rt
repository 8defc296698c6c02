//! Fields of classes, each with its id.

ghost use Rattle.std.specs.Prelude.{◌≡◌, ◌<◌, length, Some, IfSome, option_map};
ghost use Rattle.std.specs.List.{slice_get};
ghost use Rattle.jesc_references.specs.Known.{field_in as found_in};
ghost use Rattle.jesc_sites.specs.Sites.{IsSetting, IsType, setting};

use jesc_sites::Site;
use jesc_tree::{ClassId, Field, FieldId};

/// The field of that id. Takes no memory.
pub fn entry<'a>(site: &Site<'a>, field: FieldId) -> &'a Field
    requires setting { IsSetting (setting site.now) }
    requires field { field.0 < length (setting site.now).fields }
    ensures found { slice_get (setting site.now).fields field.0 ≡ Some result.now }
    ensures within { IsType (setting site.now) result.now.ty }
{
    &site.names.program.fields()[field.0 as usize]
}

/// The field that the name means in the class. Takes no memory.
pub fn field_in<'a>(site: &Site<'a>, class: ClassId, name: &[u8]) -> Option<(FieldId, &'a Field)>
    requires setting { IsSetting (setting site.now) }
    requires class { class.0 < length (setting site.now).classes }
    ensures found { option_map (λ f. (f.0.0, f.1.now)) result ≡ found_in (setting site.now) class.0 name.now }
    ensures within { IfSome result (λ f. IsType (setting site.now) f.1.now.ty) }
{
    match site.names.field(class, name) {
        Some(id) => Some((id, entry(site, id))),
        None => None,
    }
}
