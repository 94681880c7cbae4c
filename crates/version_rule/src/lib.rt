// The version rule.
#![tactic(auto, unfolding(rules::specs::Master::version_rule))]

ghost use Rattle.std.specs.Prelude.{◌≡◌};
ghost use Rattle.rules.specs.Master.{ruled_as, version_rule};

use rules::requests::{Version, VersionError};

// The version that a board's answer counts as, a higher minor as the highest known; 0.0 is an application's.
pub fn version(major: u8, minor: u8) -> Result<Version, VersionError>
    ensures { ruled_as result ≡ version_rule major minor }
{
    match (major, minor) {
        (1, _) => Ok(Version {
            major: 1,
            minor: minor.min(1),
        }),
        (2, _) => Ok(Version {
            major: 2,
            minor: minor.min(2),
        }),
        (0, 0) => Err(VersionError::ApplicationRunning),
        _ => Err(VersionError::Unknown),
    }
}
