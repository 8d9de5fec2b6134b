ghost use Rattle.std.specs.Prelude.{◌≡◌, ℕ, List, IsTrue, IsUtf8};
ghost use Rattle.serde_json.specs.Data.{string};
ghost use Rattle.vmv_keeper.specs.Label.{is_label};
ghost use Rattle.vmv_request.specs.Replies.{string_of};

/// A label is the string of its own bytes.
pub fn labels_are_their_strings()
    ensures { (label : List ℕ) → IsTrue (is_label label) → string_of label ≡ string label }
{}

/// A text that is UTF-8 is the string of its own bytes.
pub fn texts_are_their_strings()
    ensures { (text : List ℕ) → IsUtf8 text → string_of text ≡ string text }
{}
