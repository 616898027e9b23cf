//! The deployment of the workload.

ghost use Rattle.std.specs.Prelude.{◌≡◌};
ghost use Rattle.sx_bulk.specs.Bulk.{head};

/// A sensor, a module that compares what it measures with a limit, and a bulb on another node that
/// the module switches: the text of their deployment.
pub const HEAD: &str = r#"secret = "000102030405060708090a0b0c0d0e0f"
node = [ { name = "a", key = "101112131415161718191a1b1c1d1e1f" },
         { name = "b", key = "202122232425262728292a2b2c2d2e2f" } ]
device = [ { name = "light", node = "a", kind = "sensor", at = 0x1000 },
           { name = "bulb", node = "b", kind = "actuator", at = 0x1000 } ]
connection = [ { name = "up", from = "eye.level", to = "logic.level" },
               { name = "down", from = "logic.bright", to = "lamp.show" } ]
[[module]]
name = "eye"
node = "a"
provider = 7
text = 0x4000
device = "light"
source = """
sensor;
output level;
sample(v) { send level(v); }
"""
[[module]]
name = "logic"
node = "a"
provider = 7
text = 0x6000
data = 0x2000
source = """
input level;
output bright;
var limit = 100;
on level(v) { if v > limit { send bright(1); } else { send bright(0); } }
"""
[[module]]
name = "lamp"
node = "b"
provider = 7
text = 0x4000
device = "bulb"
source = """
actuator;
input show;
on show(v) { emit v; }
"""
"#;

/// The bytes of `HEAD`, under a name that contracts cite.
#[tactic(auto, unfolding(crate::specs::Bulk::head))]
pub fn head() -> &'static [u8]
    ensures { result.now ≡ head }
{
    HEAD.as_bytes()
}
