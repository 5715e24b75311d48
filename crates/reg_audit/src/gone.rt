// What goes.
use reg_base::Text;
use reg_terms::Object;

/// An object that goes, and the name that it had.
#[derive(Drop)]
pub struct Gone {
    pub object: Object,
    pub name: Text,
}
