//! What holds of the tables for every history that they represent.

ghost use Rattle.std.specs.Prelude.{◌≡◌, ◌∷◌, List};
ghost use Rattle.kern_ids.specs.declared.entries.Entry.{Entry};
ghost use Rattle.kernel_model.specs.Histories.{IsLegal};
ghost use Rattle.kernel_model.specs.Laws.Unchanged.{Unchanged};
ghost use Rattle.kernel_tables.specs.Values.{TableValues};
ghost use Rattle.kernel_tables.specs.Stands.{Stands};

/// Tables that represent a history represent it with one entry more, where that entry changes nothing.
pub fn unchanged()
    ensures { (tables : TableValues) (e : Entry) (before : List Entry) → Unchanged tables.boot e before → IsLegal tables.boot (e ∷ before) → Stands tables before → Stands tables (e ∷ before) }
{}
