ghost use Rattle.std.specs.Prelude.{◌≡◌, IfOk, IsOkUnless};
ghost use Rattle.dist_types.specs.declared.token_error.TokenError.TheVariants.{Memory as OutOfMemory};

use dist_types::ids::JobId;
use dist_types::roles::JobAuthorizer;
use dist_types::token_error::TokenError;

/// What any authorizer makes for a job it accepts for it.
pub fn made_and_verified<A: JobAuthorizer>(authorizer: &A, job_id: JobId) -> Result<(), TokenError>
    ensures { IsOkUnless result OutOfMemory }
{
    let token = authorizer.generate_token(job_id)?;
    authorizer.verify_token(job_id, token.as_str())
}
