ghost use Rattle.std.specs.Prelude.{◌≡◌, IfOk};
ghost use Rattle.serde_json.specs.Data.{boolean, string};
ghost use Rattle.serde_json.specs.View.{view};
ghost use Rattle.plan_base.specs.Scid.{scid_text};
ghost use Rattle.rpc_lines.specs.Json.{whole, dir_data, node_data};
ghost use Rattle.plan_answer.specs.Records.{list_data, bias_data, update_data, constraint_data, created_data, reservation_data, layer_data};
ghost use Rattle.plan_answer.specs.EventReply.{listed_data};

use crate::printed::{Printed, put_given, put_list, put_value};
use askrene_command::Listed;
use layer::{Bias, Bound, Constraint, Created, Update};
use plan_base::{Dir, NoMemory, NodeId, Reservation, Scid};
use serde_json::{Map, Value, json, put};
use std::alloc::Global;

impl Printed for bool {
    ghost prints = { boolean };

    fn value(&self, _alloc: Global) -> Result<Value, NoMemory> {
        Ok(Value::from(*self))
    }
}

impl Printed for u8 {
    ghost prints = { whole };

    fn value(&self, _alloc: Global) -> Result<Value, NoMemory> {
        Ok(Value::from(*self))
    }
}

impl Printed for u16 {
    ghost prints = { whole };

    fn value(&self, _alloc: Global) -> Result<Value, NoMemory> {
        Ok(Value::from(*self))
    }
}

impl Printed for u32 {
    ghost prints = { whole };

    fn value(&self, _alloc: Global) -> Result<Value, NoMemory> {
        Ok(Value::from(*self))
    }
}

impl Printed for u64 {
    ghost prints = { whole };

    fn value(&self, _alloc: Global) -> Result<Value, NoMemory> {
        Ok(Value::from(*self))
    }
}

impl Printed for NodeId {
    ghost prints = { node_data };

    fn value(&self, alloc: Global) -> Result<Value, NoMemory> {
        Ok(Value::String(self.write(alloc)?))
    }
}

impl Printed for Scid {
    ghost prints = { λ scid. string (scid_text scid) };

    fn value(&self, alloc: Global) -> Result<Value, NoMemory> {
        Ok(Value::String(self.write(alloc)?))
    }
}

impl Printed for Dir {
    ghost prints = { dir_data };

    fn value(&self, alloc: Global) -> Result<Value, NoMemory> {
        Ok(Value::String(self.write(alloc)?))
    }
}

impl Printed for Bias {
    ghost prints = { bias_data };

    #[tactic(auto, unfolding(crate::specs::Records::bias_data))]
    fn value(&self, alloc: Global) -> Result<Value, NoMemory> {
        let dir = self.dir.write(alloc)?;
        Ok(json!(in alloc; {"bias": self.bias, "short_channel_id_dir": dir})?)
    }
}

impl Printed for Update {
    ghost prints = { update_data };

    #[tactic(auto, unfolding(crate::specs::Records::update_data))]
    fn value(&self, alloc: Global) -> Result<Value, NoMemory> {
        let mut members = Map::new(alloc);
        put_value(&mut members, alloc, "short_channel_id_dir", &self.dir)?;
        put_given(&mut members, alloc, "htlc_minimum_msat", &self.htlc_min)?;
        put_given(&mut members, alloc, "htlc_maximum_msat", &self.htlc_max)?;
        put_given(
            &mut members,
            alloc,
            "fee_proportional_millionths",
            &self.ppm,
        )?;
        put_given(&mut members, alloc, "fee_base_msat", &self.base)?;
        put_given(&mut members, alloc, "enabled", &self.enabled)?;
        put_given(&mut members, alloc, "cltv_expiry_delta", &self.delay)?;
        Ok(Value::Object(members))
    }
}

impl Printed for Constraint {
    ghost prints = { constraint_data };

    #[tactic(auto, unfolding(crate::specs::Records::constraint_data))]
    fn value(&self, alloc: Global) -> Result<Value, NoMemory> {
        let dir = self.dir.write(alloc)?;
        let key = match self.bound {
            Bound::Max => "maximum_msat",
            Bound::Min => "minimum_msat",
        };
        Ok(
            json!(in alloc; {key: self.amount, "short_channel_id_dir": dir, "timestamp": self.moment})?,
        )
    }
}

impl Printed for Created {
    ghost prints = { created_data };

    #[tactic(auto, unfolding(crate::specs::Records::created_data))]
    fn value(&self, alloc: Global) -> Result<Value, NoMemory> {
        let mut members = Map::new(alloc);
        put_value(&mut members, alloc, "capacity_msat", &self.capacity)?;
        put_value(&mut members, alloc, "destination", &self.destination)?;
        put_value(&mut members, alloc, "short_channel_id", &self.scid)?;
        put_value(&mut members, alloc, "source", &self.source)?;
        Ok(Value::Object(members))
    }
}

impl Printed for Listed {
    ghost prints = { listed_data };

    #[tactic(auto, unfolding(crate::specs::EventReply::listed_data, crate::specs::Records::layer_data))]
    fn value(&self, alloc: Global) -> Result<Value, NoMemory> {
        let mut members = Map::new(alloc);
        put_list(&mut members, alloc, "biases", self.layer.biases())?;
        put_list(&mut members, alloc, "channel_updates", self.layer.updates())?;
        put_list(&mut members, alloc, "constraints", self.layer.constraints())?;
        put_list(
            &mut members,
            alloc,
            "created_channels",
            self.layer.created(),
        )?;
        put_list(&mut members, alloc, "disabled_nodes", self.layer.disabled())?;
        let name = Value::try_from_str(alloc, self.name.text())?;
        put(&mut members, alloc, "layer", name)?;
        Ok(Value::Object(members))
    }
}

/// Reservations in the same order, listed at `now` in Unix seconds.
pub fn reservation_list(alloc: Global, now: u64, list: &[Reservation]) -> Result<Value, NoMemory>
    ensures { IfOk result (λ value. view value ≡ list_data (reservation_data now) list.now) }
{
    let mut values = Vec::new(alloc);
    for reservation in list {
        let value = reservation_value(alloc, now, reservation)?;
        values.push(value)?;
    }
    Ok(Value::Array(values))
}

#[tactic(auto, unfolding(crate::specs::Records::reservation_data))]
fn reservation_value(alloc: Global, now: u64, reservation: &Reservation) -> Result<Value, NoMemory>
    ensures { IfOk result (λ value. view value ≡ reservation_data now reservation.now) }
{
    // if the clock went backwards, the age is 0
    let age = now.saturating_sub(reservation.moment);
    let dir = reservation.dir.write(alloc)?;
    Ok(
        json!(in alloc; {"age_in_seconds": age, "amount_msat": reservation.amount, "caller": reservation.caller, "short_channel_id_dir": dir})?,
    )
}
