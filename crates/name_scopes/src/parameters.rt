// Parameters.

ghost use Rattle.std.specs.Prelude.{◌≡◌, map};
ghost use Rattle.name_scopes.specs.Faults.{unless};
ghost use Rattle.name_scopes.specs.Names.{with_name};
ghost use Rattle.name_scopes.specs.Statements.{own_at};
ghost use Rattle.name_scopes.specs.Declarations.{param_name, params_names};
ghost use Rattle.name_scopes.specs.inner.Walks.{names, view, Walks};

use crate::fault::Stop;
use crate::locals::Locals;
use crate::scope::Scope;
use crate::statements::own_at;
use vale_syntax::{Bind, Name, Param};

fn name_of(param: &Param) -> &Name
    ensures { result.now ≡ param_name param.now }
{
    match param {
        Param::Operand(_, _, _, name, _) => name,
        Param::Out(_, name, _) => name,
        Param::Inline(_, name) => name,
        Param::Ghost(_, name, _) => name,
        Param::Block(_, _, name) => name,
    }
}

fn declare<'a>(scope: &Scope<'_, 'a>, locals: &mut Locals<'a>, name: &'a Name) -> Result<(), Stop>
    ensures { Walks result (names locals.new) (unless (own_at (view scope.now) (names locals.old) name.now) (with_name (names locals.old) name.now.text)) }
{
    own_at(scope, locals, name)?;
    locals.declare(name.text.as_bytes())?;
    Ok(())
}

/// The parameters of a procedure.
#[tactic(auto, unfolding(crate::specs::Declarations::params_names))]
pub(crate) fn params<'a>(
    scope: &Scope<'_, 'a>,
    locals: &mut Locals<'a>,
    list: &'a [Param],
) -> Result<(), Stop>
    ensures { Walks result (names locals.new) (params_names (view scope.now) (names locals.old) (map param_name list.now)) }
{
    for param in list {
        declare(scope, locals, name_of(param))?;
    }
    Ok(())
}

/// The parameters of a lemma or a function.
#[tactic(auto, unfolding(crate::specs::Declarations::params_names))]
pub(crate) fn binds<'a>(
    scope: &Scope<'_, 'a>,
    locals: &mut Locals<'a>,
    list: &'a [Bind],
) -> Result<(), Stop>
    ensures { Walks result (names locals.new) (params_names (view scope.now) (names locals.old) (map (λ b. b.name) list.now)) }
{
    for bind in list {
        declare(scope, locals, &bind.name)?;
    }
    Ok(())
}
