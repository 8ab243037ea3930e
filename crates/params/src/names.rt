//! The names of the methods, and the names of their parameters in the order of an array.
ghost use Rattle.std.specs.Prelude.{◌≡◌, [], ◌∷◌, codes};
ghost use Rattle.params.specs.Tables.{automatic_names, method_names, tables};

pub const CREATE_LAYER: &str = "askrene-create-layer";

pub const REMOVE_LAYER: &str = "askrene-remove-layer";

pub const LIST_LAYERS: &str = "askrene-listlayers";

pub const CREATE_CHANNEL: &str = "askrene-create-channel";

pub const UPDATE_CHANNEL: &str = "askrene-update-channel";

pub const INFORM_CHANNEL: &str = "askrene-inform-channel";

pub const BIAS_CHANNEL: &str = "askrene-bias-channel";

pub const DISABLE_NODE: &str = "askrene-disable-node";

pub const AGE: &str = "askrene-age";

pub const RESERVE: &str = "askrene-reserve";

pub const UNRESERVE: &str = "askrene-unreserve";

pub const LIST_RESERVATIONS: &str = "askrene-listreservations";

pub const GET_ROUTES: &str = "getroutes";

pub const LAYER_TABLE: &[&str] = &["layer"];

pub const CHANNEL_TABLE: &[&str] = &[
    "layer",
    "source",
    "destination",
    "short_channel_id",
    "capacity_msat",
];

pub const UPDATE_TABLE: &[&str] = &[
    "layer",
    "short_channel_id_dir",
    "enabled",
    "htlc_minimum_msat",
    "htlc_maximum_msat",
    "fee_base_msat",
    "fee_proportional_millionths",
    "cltv_expiry_delta",
];

pub const INFORM_TABLE: &[&str] = &["layer", "short_channel_id_dir", "amount_msat", "inform"];

pub const BIAS_TABLE: &[&str] = &["layer", "short_channel_id_dir", "bias"];

pub const NODE_TABLE: &[&str] = &["layer", "node"];

pub const AGE_TABLE: &[&str] = &["layer", "cutoff"];

pub const PATH_TABLE: &[&str] = &["path"];

pub const EMPTY_TABLE: &[&str] = &[];

pub const ROUTES_TABLE: &[&str] = &[
    "source",
    "destination",
    "amount_msat",
    "layers",
    "maxfee_msat",
    "final_cltv",
    "maxdelay",
    "maxparts",
    "certificate",
];

/// An automatic layer: the channels of the payer's own node.
pub const LOCAL_CHANS: &str = "auto.localchans";

/// An automatic layer: directions that leave the source are free.
pub const SOURCE_FREE: &str = "auto.sourcefree";

/// An automatic layer: one part alone.
pub const NO_MPP: &str = "auto.no_mpp_support";

/// The names as users write them, which the definitions take from these constants.
pub fn name_values()
    ensures methods { method_names ≡ codes "askrene-create-layer" ∷ codes "askrene-remove-layer"
        ∷ codes "askrene-listlayers" ∷ codes "askrene-create-channel" ∷ codes "askrene-update-channel" ∷ codes "askrene-inform-channel"
        ∷ codes "askrene-bias-channel" ∷ codes "askrene-disable-node" ∷ codes "askrene-age"
        ∷ codes "askrene-reserve" ∷ codes "askrene-unreserve" ∷ codes "askrene-listreservations"
        ∷ codes "getroutes" ∷ [] }
    ensures parameters { tables ≡ (codes "layer" ∷ [])
        ∷ (codes "layer" ∷ codes "source" ∷ codes "destination" ∷ codes "short_channel_id" ∷ codes "capacity_msat" ∷ [])
        ∷ (codes "layer" ∷ codes "short_channel_id_dir" ∷ codes "enabled" ∷ codes "htlc_minimum_msat"
        ∷ codes "htlc_maximum_msat" ∷ codes "fee_base_msat" ∷ codes "fee_proportional_millionths"
        ∷ codes "cltv_expiry_delta" ∷ [])
        ∷ (codes "layer" ∷ codes "short_channel_id_dir" ∷ codes "amount_msat" ∷ codes "inform" ∷ [])
        ∷ (codes "layer" ∷ codes "short_channel_id_dir" ∷ codes "bias" ∷ [])
        ∷ (codes "layer" ∷ codes "node" ∷ []) ∷ (codes "layer" ∷ codes "cutoff" ∷ [])
        ∷ (codes "path" ∷ []) ∷ []
        ∷ (codes "source" ∷ codes "destination" ∷ codes "amount_msat" ∷ codes "layers" ∷ codes "maxfee_msat"
        ∷ codes "final_cltv" ∷ codes "maxdelay" ∷ codes "maxparts" ∷ codes "certificate" ∷ []) ∷ [] }
    ensures automatic { automatic_names ≡ codes "auto.localchans" ∷ codes "auto.sourcefree" ∷ codes "auto.no_mpp_support" ∷ [] }
{}
