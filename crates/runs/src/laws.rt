//! A law on runs. This function computes nothing: its contract is the law.
ghost use Rattle.std.specs.Prelude.{ℕ, List, Option};
ghost use Rattle.rand_core.specs.Stream.{Stream};
ghost use Rattle.world.specs.Config.{Config};
ghost use Rattle.world.specs.World.{IsLogged};
ghost use Rattle.runs.specs.declared.link.Transfer.{Transfer};
ghost use Rattle.runs.specs.Scene.{Scene, new_scene};
ghost use Rattle.runs.specs.Drive.{Plan, Phase, Reaches, StopsRun};
ghost use Rattle.runs.specs.Soak.{IsSoak};

/// The log of a run answers events, as that of each world does: of one over a link wherever it stands, whatever came over
/// the link, and of a drawn one.
pub fn runs_are_logged()
    ensures reached { (c : Config) (plan : Plan) (phase next : Phase) (new : Scene) (told telling : Option (List Transfer))
        → Reaches c plan phase (new_scene c) told next new telling → IsLogged c new.log new.stand }
    ensures stopped { (c : Config) (plan : Plan) (phase : Phase) (new : Scene) (told telling : Option (List Transfer))
        → StopsRun c plan phase (new_scene c) told new telling → IsLogged c new.log new.stand }
    ensures drawn { (c : Config) (loss packets : ℕ) (stream : Stream) (end : Scene)
        → IsSoak c loss 0 packets stream (new_scene c) end → IsLogged c end.log end.stand }
{}
