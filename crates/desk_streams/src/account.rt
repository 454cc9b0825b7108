//! The call that shows the account.

ghost use Rattle.std.specs.Prelude.{◌≡◌};
ghost use Rattle.api_calls.specs.Names.{name_of};
ghost use Rattle.api_calls.specs.declared.call.ApiCall.TheVariants as calls;
ghost use Rattle.js_api.specs.AllStreams.{IsOverAll, account};
ghost use Rattle.js_api.specs.Leading.{Makes};
ghost use Rattle.desk_ground.specs.Grounds.{Outside};

use crate::walking::walk;
use desk_answers::account_reply;
use desk_ground::{Ground, answer, refuse_for};
use js_api::{ApiCall, DeskFault};
use js_base::{Blob, Moment};

/// Shows the account: how many streams and consumers there are, and what they hold.
pub fn show_account<G: Ground>(
    ground: &mut G,
    to: &Option<Blob>,
    now: Moment,
) -> Result<bool, DeskFault>
    requires outside { G.phase ground.old ≡ Outside }
    ensures made { Makes G.made (IsOverAll (name_of calls.AccountInfo) to.now now (account to.now) result) ground.old ground.new }
    ensures setting { G.setting ground.new ≡ G.setting ground.old }
    ensures phase { G.phase ground.new ≡ Outside }
{
    let mut infos = Vec::new(ground.alloc());
    match walk(ground, &mut infos, now)? {
        None => answer(ground, to, account_reply(infos.as_slice())),
        Some(reason) => refuse_for(ground, ApiCall::AccountInfo, to, reason),
    }
}
