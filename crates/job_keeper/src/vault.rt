//! What gives a keeper, as a trait.

ghost use Rattle.std.specs.Prelude.{◌≡◌, true, false, IfSome, IfOk};
ghost use Rattle.std.specs.Option.{option_map, option_copied};
ghost use Rattle.job_keeper.specs.Projects.{AreProjects};
ghost use Rattle.job_keeper.specs.Keeping.{SeenVault, HasKeepCause, Stored, projects_under};

use crate::keeper::{KeepError, Keeper};

/// Projects under a file's name, or under none.
pub trait Vault {
    type K: Keeper;

    ghost seen: { Self → SeenVault };

    /// A keeper over that file, or over none. At most one call may come.
    fn keeper(&mut self, file: Option<&str>) -> Result<Self::K, KeepError>
        requires { (seen self.old).asked ≡ false }

        // Under the vault's own file the keeper tells the vault's projects, under another one none.
        ensures projects { IfOk result (λ k. (Self.K.seen k).projects
            ≡ option_map (λ (s : Stored). projects_under (option_copied file.entry) s)
            (seen self.old).stored) }
        ensures names { IfSome (seen self.new).stored (λ s. AreProjects s.projects) }
        ensures keeper_names { IfOk result (λ k. IfSome (Self.K.seen k).projects AreProjects) }
        ensures faultless { IfOk result (λ k. (Self.K.seen k).faults ≡ 0) }
        ensures sure { (seen self.old).keepers_fail ≡ false
            → IfOk result (λ k. (Self.K.seen k).can_fail ≡ false) }
        ensures asked { (seen self.new).asked ≡ true }
        ensures kept { (seen self.new).stored ≡ (seen self.old).stored }
        ensures same { (seen self.new).keepers_fail ≡ (seen self.old).keepers_fail }
        ensures cause { HasKeepCause (seen self.old).faults (seen self.new).faults result };
}
