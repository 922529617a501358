//! Laws of scripts and their texts.
ghost use Rattle.std.specs.Prelude.{◌≡◌, ◌↔◌, ◌++◌, [], List, None, Some, ℕ};
ghost use Rattle.raid_base.specs.declared.status.Kind.{Kind};
ghost use Rattle.script_text.specs.Beginnings.{IsFirstBad};
ghost use Rattle.script_text.specs.Faults.{fault_in};
ghost use Rattle.script_text.specs.Ranges.{IsScript};
ghost use Rattle.script_text.specs.Script.{Script};
ghost use Rattle.script_text.specs.Text.{script_text};

/// Law: no script's text begins another's, and two scripts of one text are one.
pub fn scripts_have_their_own_texts()
    ensures { (a b : Script) → (rest : List ℕ) → IsScript a → IsScript b → script_text b ≡ script_text a ++ rest → (a ≡ b) × (rest ≡ []) }
{}

/// Law: a text has no line with a fault exactly where it is a script's.
pub fn texts_without_fault_are_scripts()
    ensures { (bytes : List ℕ) → (fault_in bytes ≡ None) ↔ ((script : Script) × IsScript script × (bytes ≡ script_text script)) }
{}

/// Law: a fault is told of the first line that begins no script's text with the lines before it.
pub fn faults_are_told_where_they_are()
    ensures { (bytes : List ℕ) (line : ℕ) (kind : Kind) → fault_in bytes ≡ Some (line, kind) → IsFirstBad line kind bytes }
{}
