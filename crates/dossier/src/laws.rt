// Laws of dossiers.
ghost use Rattle.dossier.specs.Kinds.{PartsAreTheInput, PartsGoByKind};
ghost use Rattle.dossier.specs.Written.{AWrittenDossierIsWeighed};

// The four parts of a dossier, joined again, are the dossier.
pub fn parts_are_the_input() -> bool
    ensures { PartsAreTheInput }
{
    true
}

// Each part has the words that its name says, and goes on as long as they do.
pub fn parts_go_by_kind() -> bool
    ensures { PartsGoByKind }
{
    true
}

// A dossier that is written part by part is answered by the weighing of its evidence on its plant, from its source to its target.
pub fn a_written_dossier_is_weighed() -> bool
    ensures { AWrittenDossierIsWeighed }
{
    true
}
