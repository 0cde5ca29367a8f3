//! Requests to sensors.
ghost use Rattle.std.specs.Prelude.{◌≡◌, ◌≤◌, length};
ghost use Rattle.two_wire.specs.Sizes.{most_ipmi_request_data};
ghost use Rattle.sensor_recs.specs.Requests.{sensor_request};

use record_base::Asked;
use record_base::net_fn::SENSOR_EVENT;
use two_wire::NetFn;

/// The sensor request with this command and data: without a sender, to logical unit 0.
pub fn sensor_request(command: u8, body: &[u8]) -> Asked
    requires { length body.now ≤ most_ipmi_request_data }
    ensures { result ≡ sensor_request command body.now }
{
    Asked::ipmi(NetFn::new(SENSOR_EVENT), command, body)
}
