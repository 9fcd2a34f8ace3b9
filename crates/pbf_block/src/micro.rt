//! Nanodegrees as microdegrees.

ghost use Rattle.std.specs.Prelude.{◌≡◌, true};
ghost use Rattle.osm_model.specs.Blocks.{keeps_limit};
ghost use Rattle.osm_model.specs.Blocks as blocks;

use osm_model::limits::LONGITUDE_LIMIT;

/// The microdegrees of nanodegrees that are on the earth, rounded towards zero.
pub fn micro(nano: i64) -> i32
    requires { keeps_limit LONGITUDE_LIMIT nano ≡ true }
    ensures { result ≡ blocks.micro nano }
{
    (nano / 1000) as i32
}

/// Whether nanodegrees lie within a limit on both sides of 0.
pub fn is_within(limit: u64, nano: i64) -> bool
    ensures { result ≡ keeps_limit limit nano }
{
    nano.unsigned_abs() <= limit
}
