//! Laws on scripts. These functions compute nothing: their contracts are the laws.
ghost use Rattle.std.specs.Prelude.{◌≡◌, ℕ, List, Some, None};
ghost use Rattle.world.specs.declared.event.Event.{Event};
ghost use Rattle.world.specs.Config.{Config};
ghost use Rattle.commands.specs.IsScript.{IsScript};
ghost use Rattle.commands.specs.Script.{script_config, script_events, bad_line};

/// A text is a script where it has no bad line, and of no other configuration and events than those that are
/// read off it.
pub fn scripts_are_read()
    ensures no_fault { (text : List ℕ) (c : Config) (events : List Event) → IsScript text c events → bad_line text ≡ None }
    ensures config { (text : List ℕ) (c : Config) (events : List Event) → IsScript text c events → script_config text ≡ Some c }
    ensures events { (text : List ℕ) (c : Config) (events : List Event) → IsScript text c events → script_events text ≡ events }
    ensures script { (text : List ℕ) (c : Config) → bad_line text ≡ None → script_config text ≡ Some c → IsScript text c (script_events text) }
{}
