ghost use Rattle.std.specs.Prelude.{◌≡◌};

use crate::tables::Tables;

// A book that is being drafted: it takes plates and components, and holds the annex that will judge
// them.
#[derive(Drop)]
pub struct Drafting<A> {
    annex: A,
    tables: Tables,
}

mod acts;
