//! The stream that the command line names, which is made before a link is served.

ghost use Rattle.std.specs.Prelude.{◌≡◌, IfSome, IsTrue};
ghost use Rattle.js_api.specs.Worlds.{opening};
ghost use Rattle.js_desk.specs.Solo.{DeskMade};
ghost use Rattle.js_model.specs.Configs.{is_stream_subject};
ghost use Rattle.server.specs.Attending.{IsPrepared};

use crate::words::NamedStream;
use js_api::DeskFault;
use js_base::ApiError;
use js_desk::SoloDesk;
use link_edge::Clock;
use place_engine::Place;

/// Makes the stream in a desk that was just opened, if one is named, and answers why not. The clock is read for that alone.
pub fn prepare<P: Place, C: Clock>(
    desk: &mut SoloDesk<P>,
    stream: &Option<NamedStream>,
    clock: &mut C,
) -> Result<Option<ApiError>, DeskFault>
    requires opened { desk.old.scene ≡ opening desk.old.scene.world.places }
    requires subject { IfSome stream.now (λ named. IsTrue (is_stream_subject named.subject)) }
    ensures prepared { IsPrepared (DeskMade P.keeps_vol P.holds P.left P.clock P.base P.room_causes.outgrows_log) desk.old desk.new stream.now result (C.to_come clock.old) (C.to_come clock.new) }
    ensures client { desk.new.client ≡ desk.old.client }
{
    match stream {
        Some(named) => {
            let now = clock.now();
            desk.make_stream(&named.name, named.subject.as_slice(), now)
        }
        None => Ok(None),
    }
}
