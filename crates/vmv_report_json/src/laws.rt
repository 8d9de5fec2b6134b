ghost use Rattle.std.specs.Prelude.{◌≡◌, IsTrue};
ghost use Rattle.serde_json.specs.Data.{string};
ghost use Rattle.vmv_tree.specs.declared.name.Name.{Name};
ghost use Rattle.vmv_tree.specs.Names.{is_name};
ghost use Rattle.vmv_witness.specs.declared.witness.Witness.{Witness};
ghost use Rattle.vmv_witness.specs.Text.{witness_text, IsWitness};
ghost use Rattle.vmv_report_json.specs.Json.{string_of, witness_data};

/// A name is the string of its own bytes.
pub fn names_are_their_strings()
    ensures { (name : Name) → IsTrue (is_name name) → string_of name ≡ string name }
{}

/// A witness whose names are names of the grammar is the string of its text.
pub fn witnesses_are_their_texts()
    ensures { (w : Witness) → IsWitness w → witness_data w ≡ string (witness_text w) }
{}
