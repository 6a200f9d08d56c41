ghost use Rattle.std.specs.Prelude.{◌≡◌, ℕ, List, IfOk, OnOk};
ghost use Rattle.brace_model.specs.Value.{Scope};
ghost use Rattle.brace_plan.specs.declared.action.Action.TheVariants as action;
ghost use Rattle.brace_fold.specs.declared.table.Table.{Table};
ghost use Rattle.brace_model.specs.declared.program.Ty.TheVariants as ty;
ghost use Rattle.brace_code.specs.Codes.{type_given};
ghost use Rattle.brace_fold.specs.inner.Crowds.{IsScene, Stands, chosen};
ghost use Rattle.brace_fold.specs.inner.Deeds.{Does, Leads, Worths, done_once, done_by};

use crate::columns::views;
use crate::crowd::Crowd;
use crate::finding::Room;
use crate::scene::Scene;
use crate::table::Table;
use brace_code::{Code, Redo, View};
use brace_model::{Ty, Who};
use brace_num::List;
use brace_plan::{Action, Bound};

/// Sets a constant in each lane.
fn set(scene: &Scene, n: u32, code: &Code, crowd: &mut Crowd) -> Result<(), Redo>
    requires { IsScene scene.now }
    ensures { OnOk result ((scopes : List Scope) (heard : Table)
        → Stands scene.now crowd.old scopes
        → Leads scene.now (done_once scene.now (action.Const n code.now)) scopes crowd.new
        heard heard) }
{
    let words = scene.eval(code, crowd)?;
    crowd.bind(scene.alloc, n, code.ty(), words)?;
    Ok(())
}

/// Says a value in each lane. No column is made of words that stand in one.
fn tell<'a>(
    scene: &'a Scene,
    who: Who,
    effect: u32,
    code: &Code,
    crowd: &'a Crowd,
    heard: &mut Table,
) -> Result<(), Redo>
    requires { IsScene scene.now }
    ensures { OnOk result ((scopes : List Scope) → Stands scene.now crowd.now scopes
        → Leads scene.now (done_once scene.now (action.Assign who effect code.now)) scopes
        crowd.now heard.old heard.new) }
{
    let locals = views(scene.alloc, &crowd.locals)?;
    // Lent again, since a view has one lifetime for all that it reads.
    let frame = (&*scene).frame(crowd.depth, &locals);
    if let Some(view) = code.view(&frame, &crowd.lanes) {
        scene.say(crowd, who, effect, code.ty(), view, heard)?;
        return Ok(());
    }
    let words = code.eval_lanes(scene.alloc, &frame, &crowd.lanes)?;
    let view = View::Each(words.as_slice());
    scene.say(crowd, who, effect, code.ty(), view, heard)?;
    Ok(())
}

/// What code gives in each lane, a flag.
fn flags(scene: &Scene, code: &Code, crowd: &Crowd) -> Result<List<i64>, Redo>
    requires { IsScene scene.now }
    ensures flag { IfOk result (λ _. type_given code.now ≡ ty.Bool) }
    ensures worths { IfOk result (λ words. (scopes : List Scope)
        → Stands scene.now crowd.now scopes → Worths code.now scopes words) }
{
    if code.ty() != Ty::Bool {
        return Err(Redo);
    }
    scene.eval(code, crowd)
}

/// Does a block in the lanes of a crowd whose flag is set, or in those whose flag is 0.
#[cycle(walk)]
fn side(
    scene: &Scene,
    set: bool,
    flags: &[i64],
    actions: &List<Action>,
    crowd: &Crowd,
    heard: &mut Table,
) -> Result<(), Redo>
    requires { IsScene scene.now }
    ensures { OnOk result ((scopes : List Scope) → Stands scene.now crowd.now scopes
        → Does scene.now (done_by scene.now actions.now) (chosen set scopes flags.now)
        heard.old heard.new) }
{
    if actions.as_slice().is_empty() {
        return Ok(());
    }
    let part = crowd.side(scene.alloc, set, flags)?;
    block(scene, actions, part, heard)
}

/// Does an action in all lanes of a crowd.
#[cycle(walk)]
fn action(scene: &Scene, action: &Action, crowd: &mut Crowd, heard: &mut Table) -> Result<(), Redo>
    requires { IsScene scene.now }
    ensures { OnOk result ((scopes : List Scope) → Stands scene.now crowd.old scopes
        → Leads scene.now (done_once scene.now action.now) scopes crowd.new
        heard.old heard.new) }
{
    match action {
        Action::Const(n, code) => set(scene, *n, code, crowd),
        Action::If(code, a, b) => {
            let flags = flags(scene, code, crowd)?;
            side(scene, true, flags.as_slice(), a, crowd, heard)?;
            side(scene, false, flags.as_slice(), b, crowd, heard)
        }
        Action::Foreach(class, bounds, body, _) => {
            iterations(scene, *class, bounds, body, crowd, heard)
        }
        Action::Assign(who, effect, code) => tell(&*scene, *who, *effect, code, crowd, heard),
    }
}

/// Does a loop's block in each lane, at each agent that the loop takes there.
#[cycle(walk)]
fn iterations(
    scene: &Scene,
    class: u32,
    bounds: &List<Bound>,
    body: &List<Action>,
    crowd: &Crowd,
    heard: &mut Table,
) -> Result<(), Redo>
    requires { IsScene scene.now }
    ensures { OnOk result ((scopes : List Scope) (offset : ℕ)
        → Stands scene.now crowd.now scopes → Leads scene.now
        (done_once scene.now (action.Foreach class bounds.now body.now offset)) scopes
        crowd.now heard.old heard.new) }
{
    let mut room = Room::new(scene.alloc);
    let lanes = &crowd.lanes;
    let mut at = 0;
    while at < lanes.len() {
        let part = scene.gather(crowd, at, class, bounds, &mut room)?;
        block(scene, body, part.inside, heard)?;
        at = part.next;
    }
    Ok(())
}

/// Does actions in turn in all lanes of a crowd.
#[cycle(walk)]
pub fn block(
    scene: &Scene,
    actions: &List<Action>,
    crowd: Crowd,
    heard: &mut Table,
) -> Result<(), Redo>
    requires { IsScene scene.now }
    ensures { OnOk result ((scopes : List Scope) → Stands scene.now crowd scopes
        → Does scene.now (done_by scene.now actions.now) scopes heard.old heard.new) }
{
    if crowd.lanes.is_empty() {
        return Ok(());
    }
    let mut crowd = crowd;
    for item in actions.as_slice() {
        action(scene, item, &mut crowd, heard)?;
    }
    Ok(())
}
