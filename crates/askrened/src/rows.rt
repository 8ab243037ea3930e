//! Worked rows: a map and a local file, or no text for an empty one, and lines with their replies. The moments are 100 and then
//! 130.

/// The map, the local file, the lines and the replies.
pub(crate) type Row = (&'static str, &'static str, &'static str, &'static str);

/// Paths, fees, parts and probability.
pub(crate) const PATHS: &[Row] = &[
    // one path with fees
    (
        r#"{"channels":[{"active":true,"amount_msat":1000000,"base_fee_millisatoshi":1000,"delay":6,"destination":"02bbbbbbbbbbbbbbbbbbbbbbbbbbbbbbbbbbbbbbbbbbbbbbbbbbbbbbbbbbbbbbbb","direction":0,"fee_per_millionth":1000,"htlc_minimum_msat":0,"short_channel_id":"100x1x0","source":"02aaaaaaaaaaaaaaaaaaaaaaaaaaaaaaaaaaaaaaaaaaaaaaaaaaaaaaaaaaaaaaaa"},{"active":true,"amount_msat":1000000,"base_fee_millisatoshi":0,"delay":6,"destination":"02cccccccccccccccccccccccccccccccccccccccccccccccccccccccccccccccc","direction":0,"fee_per_millionth":1000,"htlc_minimum_msat":0,"short_channel_id":"100x2x0","source":"02bbbbbbbbbbbbbbbbbbbbbbbbbbbbbbbbbbbbbbbbbbbbbbbbbbbbbbbbbbbbbbbb"}]}"#,
        "",
        r#"{"id":3,"method":"getroutes","params":{"amount_msat":100000,"destination":"02cccccccccccccccccccccccccccccccccccccccccccccccccccccccccccccccc","final_cltv":18,"layers":[],"maxfee_msat":5000,"source":"02aaaaaaaaaaaaaaaaaaaaaaaaaaaaaaaaaaaaaaaaaaaaaaaaaaaaaaaaaaaaaaaa"}}
"#,
        r#"{"id":3,"jsonrpc":"2.0","result":{"at":0,"fee_msat":1200,"probability_ppm":809910,"rounds":[{"caps":[],"delay_level":0,"fault":{"kind":"none"},"fee_level":0,"part_max":100000,"parts":[{"path":["100x1x0/0","100x2x0/0"],"units":100000}],"unit_msat":1}],"routes":[{"amount_msat":100000,"final_cltv":18,"path":[{"amount_msat":101200,"carried_msat":100100,"delay":30,"next_node_id":"02bbbbbbbbbbbbbbbbbbbbbbbbbbbbbbbbbbbbbbbbbbbbbbbbbbbbbbbbbbbbbbbb","short_channel_id_dir":"100x1x0/0"},{"amount_msat":100100,"carried_msat":100000,"delay":24,"next_node_id":"02cccccccccccccccccccccccccccccccccccccccccccccccccccccccccccccccc","short_channel_id_dir":"100x2x0/0"}]}]}}
"#,
    ),
    // the source's own fees are left out
    (
        r#"{"channels":[{"active":true,"amount_msat":1000000,"base_fee_millisatoshi":1000,"delay":6,"destination":"02bbbbbbbbbbbbbbbbbbbbbbbbbbbbbbbbbbbbbbbbbbbbbbbbbbbbbbbbbbbbbbbb","direction":0,"fee_per_millionth":1000,"htlc_minimum_msat":0,"short_channel_id":"100x1x0","source":"02aaaaaaaaaaaaaaaaaaaaaaaaaaaaaaaaaaaaaaaaaaaaaaaaaaaaaaaaaaaaaaaa"},{"active":true,"amount_msat":1000000,"base_fee_millisatoshi":0,"delay":6,"destination":"02cccccccccccccccccccccccccccccccccccccccccccccccccccccccccccccccc","direction":0,"fee_per_millionth":1000,"htlc_minimum_msat":0,"short_channel_id":"100x2x0","source":"02bbbbbbbbbbbbbbbbbbbbbbbbbbbbbbbbbbbbbbbbbbbbbbbbbbbbbbbbbbbbbbbb"}]}"#,
        "",
        r#"{"id":1,"method":"getroutes","params":{"amount_msat":100000,"destination":"02cccccccccccccccccccccccccccccccccccccccccccccccccccccccccccccccc","final_cltv":18,"layers":["auto.sourcefree"],"maxfee_msat":5000,"source":"02aaaaaaaaaaaaaaaaaaaaaaaaaaaaaaaaaaaaaaaaaaaaaaaaaaaaaaaaaaaaaaaa"}}
"#,
        r#"{"id":1,"jsonrpc":"2.0","result":{"at":0,"fee_msat":100,"probability_ppm":809910,"rounds":[{"caps":[],"delay_level":0,"fault":{"kind":"none"},"fee_level":0,"part_max":100000,"parts":[{"path":["100x1x0/0","100x2x0/0"],"units":100000}],"unit_msat":1}],"routes":[{"amount_msat":100000,"final_cltv":18,"path":[{"amount_msat":100100,"carried_msat":100100,"delay":24,"next_node_id":"02bbbbbbbbbbbbbbbbbbbbbbbbbbbbbbbbbbbbbbbbbbbbbbbbbbbbbbbbbbbbbbbb","short_channel_id_dir":"100x1x0/0"},{"amount_msat":100100,"carried_msat":100000,"delay":24,"next_node_id":"02cccccccccccccccccccccccccccccccccccccccccccccccccccccccccccccccc","short_channel_id_dir":"100x2x0/0"}]}]}}
"#,
    ),
    // a whole channel, and one more
    (
        r#"{"channels":[{"active":true,"amount_msat":1000000,"base_fee_millisatoshi":0,"delay":6,"destination":"02dddddddddddddddddddddddddddddddddddddddddddddddddddddddddddddddd","direction":0,"fee_per_millionth":0,"htlc_minimum_msat":0,"short_channel_id":"100x3x0","source":"02aaaaaaaaaaaaaaaaaaaaaaaaaaaaaaaaaaaaaaaaaaaaaaaaaaaaaaaaaaaaaaaa"}]}"#,
        "",
        r#"{"id":1,"method":"getroutes","params":{"amount_msat":1000000,"destination":"02dddddddddddddddddddddddddddddddddddddddddddddddddddddddddddddddd","final_cltv":18,"layers":[],"maxfee_msat":0,"source":"02aaaaaaaaaaaaaaaaaaaaaaaaaaaaaaaaaaaaaaaaaaaaaaaaaaaaaaaaaaaaaaaa"}}
{"id":2,"method":"getroutes","params":{"amount_msat":1000001,"destination":"02dddddddddddddddddddddddddddddddddddddddddddddddddddddddddddddddd","final_cltv":18,"layers":[],"maxfee_msat":0,"source":"02aaaaaaaaaaaaaaaaaaaaaaaaaaaaaaaaaaaaaaaaaaaaaaaaaaaaaaaaaaaaaaaa"}}
"#,
        r#"{"id":1,"jsonrpc":"2.0","result":{"at":0,"fee_msat":0,"probability_ppm":0,"rounds":[{"caps":[],"delay_level":0,"fault":{"kind":"none"},"fee_level":0,"part_max":1000000,"parts":[{"path":["100x3x0/0"],"units":1000000}],"unit_msat":1}],"routes":[{"amount_msat":1000000,"final_cltv":18,"path":[{"amount_msat":1000000,"carried_msat":1000000,"delay":24,"next_node_id":"02dddddddddddddddddddddddddddddddddddddddddddddddddddddddddddddddd","short_channel_id_dir":"100x3x0/0"}]}]}}
{"error":{"code":205,"data":{"at":1,"cut":["02aaaaaaaaaaaaaaaaaaaaaaaaaaaaaaaaaaaaaaaaaaaaaaaaaaaaaaaaaaaaaaaa"],"limit":"flow","rounds":[{"caps":[],"delay_level":0,"fault":{"kind":"no_flow"},"fee_level":0,"part_max":1000001,"parts":[],"unit_msat":1}]},"message":"no flow"},"id":2,"jsonrpc":"2.0"}
"#,
    ),
    // two parts, and one part at most
    (
        r#"{"channels":[{"active":true,"amount_msat":600000,"base_fee_millisatoshi":0,"delay":6,"destination":"02dddddddddddddddddddddddddddddddddddddddddddddddddddddddddddddddd","direction":0,"fee_per_millionth":0,"htlc_minimum_msat":0,"short_channel_id":"100x4x0","source":"02aaaaaaaaaaaaaaaaaaaaaaaaaaaaaaaaaaaaaaaaaaaaaaaaaaaaaaaaaaaaaaaa"},{"active":true,"amount_msat":400000,"base_fee_millisatoshi":0,"delay":6,"destination":"02dddddddddddddddddddddddddddddddddddddddddddddddddddddddddddddddd","direction":0,"fee_per_millionth":0,"htlc_minimum_msat":0,"short_channel_id":"100x5x0","source":"02aaaaaaaaaaaaaaaaaaaaaaaaaaaaaaaaaaaaaaaaaaaaaaaaaaaaaaaaaaaaaaaa"}]}"#,
        "",
        r#"{"id":1,"method":"getroutes","params":{"amount_msat":1000000,"destination":"02dddddddddddddddddddddddddddddddddddddddddddddddddddddddddddddddd","final_cltv":18,"layers":[],"maxfee_msat":0,"source":"02aaaaaaaaaaaaaaaaaaaaaaaaaaaaaaaaaaaaaaaaaaaaaaaaaaaaaaaaaaaaaaaa"}}
{"id":2,"method":"getroutes","params":{"amount_msat":1000000,"destination":"02dddddddddddddddddddddddddddddddddddddddddddddddddddddddddddddddd","final_cltv":18,"layers":[],"maxfee_msat":0,"maxparts":1,"source":"02aaaaaaaaaaaaaaaaaaaaaaaaaaaaaaaaaaaaaaaaaaaaaaaaaaaaaaaaaaaaaaaa"}}
{"id":3,"method":"getroutes","params":{"amount_msat":1000000,"destination":"02dddddddddddddddddddddddddddddddddddddddddddddddddddddddddddddddd","final_cltv":18,"layers":["auto.no_mpp_support"],"maxfee_msat":0,"source":"02aaaaaaaaaaaaaaaaaaaaaaaaaaaaaaaaaaaaaaaaaaaaaaaaaaaaaaaaaaaaaaaa"}}
"#,
        r#"{"id":1,"jsonrpc":"2.0","result":{"at":0,"fee_msat":0,"probability_ppm":0,"rounds":[{"caps":[],"delay_level":0,"fault":{"kind":"none"},"fee_level":0,"part_max":1000000,"parts":[{"path":["100x4x0/0"],"units":600000},{"path":["100x5x0/0"],"units":400000}],"unit_msat":1}],"routes":[{"amount_msat":600000,"final_cltv":18,"path":[{"amount_msat":600000,"carried_msat":600000,"delay":24,"next_node_id":"02dddddddddddddddddddddddddddddddddddddddddddddddddddddddddddddddd","short_channel_id_dir":"100x4x0/0"}]},{"amount_msat":400000,"final_cltv":18,"path":[{"amount_msat":400000,"carried_msat":400000,"delay":24,"next_node_id":"02dddddddddddddddddddddddddddddddddddddddddddddddddddddddddddddddd","short_channel_id_dir":"100x5x0/0"}]}]}}
{"error":{"code":205,"data":{"at":1,"cut":["02aaaaaaaaaaaaaaaaaaaaaaaaaaaaaaaaaaaaaaaaaaaaaaaaaaaaaaaaaaaaaaaa"],"limit":"flow","rounds":[{"caps":[],"delay_level":0,"fault":{"kind":"too_many_parts"},"fee_level":0,"part_max":1000000,"parts":[{"path":["100x4x0/0"],"units":600000},{"path":["100x5x0/0"],"units":400000}],"unit_msat":1},{"caps":[],"delay_level":0,"fault":{"kind":"no_flow"},"fee_level":0,"part_max":1,"parts":[],"unit_msat":1000000}]},"message":"no flow"},"id":2,"jsonrpc":"2.0"}
{"error":{"code":205,"data":{"at":2,"cut":["02aaaaaaaaaaaaaaaaaaaaaaaaaaaaaaaaaaaaaaaaaaaaaaaaaaaaaaaaaaaaaaaa"],"limit":"flow","rounds":[{"caps":[],"delay_level":0,"fault":{"kind":"too_many_parts"},"fee_level":0,"part_max":1000000,"parts":[{"path":["100x4x0/0"],"units":600000},{"path":["100x5x0/0"],"units":400000}],"unit_msat":1},{"caps":[],"delay_level":0,"fault":{"kind":"no_flow"},"fee_level":0,"part_max":1,"parts":[],"unit_msat":1000000}]},"message":"no flow"},"id":3,"jsonrpc":"2.0"}
"#,
    ),
    // larger units after too many parts
    (
        r#"{"channels":[{"active":true,"amount_msat":400,"base_fee_millisatoshi":0,"delay":6,"destination":"02dddddddddddddddddddddddddddddddddddddddddddddddddddddddddddddddd","direction":0,"fee_per_millionth":0,"htlc_minimum_msat":0,"short_channel_id":"100x3x0","source":"02aaaaaaaaaaaaaaaaaaaaaaaaaaaaaaaaaaaaaaaaaaaaaaaaaaaaaaaaaaaaaaaa"},{"active":true,"amount_msat":600,"base_fee_millisatoshi":0,"delay":6,"destination":"02dddddddddddddddddddddddddddddddddddddddddddddddddddddddddddddddd","direction":0,"fee_per_millionth":10,"htlc_minimum_msat":0,"short_channel_id":"100x4x0","source":"02aaaaaaaaaaaaaaaaaaaaaaaaaaaaaaaaaaaaaaaaaaaaaaaaaaaaaaaaaaaaaaaa"},{"active":true,"amount_msat":1000,"base_fee_millisatoshi":0,"delay":6,"destination":"02dddddddddddddddddddddddddddddddddddddddddddddddddddddddddddddddd","direction":0,"fee_per_millionth":20,"htlc_minimum_msat":0,"short_channel_id":"100x5x0","source":"02aaaaaaaaaaaaaaaaaaaaaaaaaaaaaaaaaaaaaaaaaaaaaaaaaaaaaaaaaaaaaaaa"}]}"#,
        "",
        r#"{"id":1,"method":"getroutes","params":{"amount_msat":1001,"destination":"02dddddddddddddddddddddddddddddddddddddddddddddddddddddddddddddddd","final_cltv":18,"layers":[],"maxfee_msat":0,"maxparts":2,"source":"02aaaaaaaaaaaaaaaaaaaaaaaaaaaaaaaaaaaaaaaaaaaaaaaaaaaaaaaaaaaaaaaa"}}
"#,
        r#"{"id":1,"jsonrpc":"2.0","result":{"at":0,"fee_msat":0,"probability_ppm":83277,"rounds":[{"caps":[],"delay_level":0,"fault":{"kind":"too_many_parts"},"fee_level":0,"part_max":1001,"parts":[{"path":["100x3x0/0"],"units":400},{"path":["100x4x0/0"],"units":600},{"path":["100x5x0/0"],"units":1}],"unit_msat":1},{"caps":[],"delay_level":0,"fault":{"kind":"none"},"fee_level":0,"part_max":2,"parts":[{"path":["100x4x0/0"],"units":1},{"path":["100x5x0/0"],"units":1}],"unit_msat":501}],"routes":[{"amount_msat":501,"final_cltv":18,"path":[{"amount_msat":501,"carried_msat":501,"delay":24,"next_node_id":"02dddddddddddddddddddddddddddddddddddddddddddddddddddddddddddddddd","short_channel_id_dir":"100x4x0/0"}]},{"amount_msat":500,"final_cltv":18,"path":[{"amount_msat":500,"carried_msat":500,"delay":24,"next_node_id":"02dddddddddddddddddddddddddddddddddddddddddddddddddddddddddddddddd","short_channel_id_dir":"100x5x0/0"}]}]}}
"#,
    ),
];

/// Limits that a round breaks, and what the next one changes.
pub(crate) const LIMITS: &[Row] = &[
    // reservations take room
    (
        r#"{"channels":[{"active":true,"amount_msat":1000000,"base_fee_millisatoshi":1000,"delay":6,"destination":"02bbbbbbbbbbbbbbbbbbbbbbbbbbbbbbbbbbbbbbbbbbbbbbbbbbbbbbbbbbbbbbbb","direction":0,"fee_per_millionth":1000,"htlc_minimum_msat":0,"short_channel_id":"100x1x0","source":"02aaaaaaaaaaaaaaaaaaaaaaaaaaaaaaaaaaaaaaaaaaaaaaaaaaaaaaaaaaaaaaaa"},{"active":true,"amount_msat":1000000,"base_fee_millisatoshi":0,"delay":6,"destination":"02cccccccccccccccccccccccccccccccccccccccccccccccccccccccccccccccc","direction":0,"fee_per_millionth":1000,"htlc_minimum_msat":0,"short_channel_id":"100x2x0","source":"02bbbbbbbbbbbbbbbbbbbbbbbbbbbbbbbbbbbbbbbbbbbbbbbbbbbbbbbbbbbbbbbb"}]}"#,
        "",
        r#"{"id":1,"method":"askrene-reserve","params":{"path":[{"amount_msat":950000,"short_channel_id_dir":"100x2x0/0"}]}}
{"id":2,"method":"getroutes","params":{"amount_msat":100000,"destination":"02cccccccccccccccccccccccccccccccccccccccccccccccccccccccccccccccc","final_cltv":18,"layers":[],"maxfee_msat":5000,"source":"02aaaaaaaaaaaaaaaaaaaaaaaaaaaaaaaaaaaaaaaaaaaaaaaaaaaaaaaaaaaaaaaa"}}
{"id":3,"method":"askrene-unreserve","params":{"path":[{"amount_msat":950000,"short_channel_id_dir":"100x2x0/0"}]}}
{"id":4,"method":"getroutes","params":{"amount_msat":100000,"destination":"02cccccccccccccccccccccccccccccccccccccccccccccccccccccccccccccccc","final_cltv":18,"layers":[],"maxfee_msat":5000,"source":"02aaaaaaaaaaaaaaaaaaaaaaaaaaaaaaaaaaaaaaaaaaaaaaaaaaaaaaaaaaaaaaaa"}}
"#,
        r#"{"id":1,"jsonrpc":"2.0","result":{"at":0}}
{"error":{"code":205,"data":{"at":1,"cut":["02aaaaaaaaaaaaaaaaaaaaaaaaaaaaaaaaaaaaaaaaaaaaaaaaaaaaaaaaaaaaaaaa","02bbbbbbbbbbbbbbbbbbbbbbbbbbbbbbbbbbbbbbbbbbbbbbbbbbbbbbbbbbbbbbbb"],"limit":"flow","rounds":[{"caps":[],"delay_level":0,"fault":{"kind":"no_flow"},"fee_level":0,"part_max":100000,"parts":[],"unit_msat":1}]},"message":"no flow"},"id":2,"jsonrpc":"2.0"}
{"id":3,"jsonrpc":"2.0","result":{"at":2}}
{"id":4,"jsonrpc":"2.0","result":{"at":3,"fee_msat":1200,"probability_ppm":809910,"rounds":[{"caps":[],"delay_level":0,"fault":{"kind":"none"},"fee_level":0,"part_max":100000,"parts":[{"path":["100x1x0/0","100x2x0/0"],"units":100000}],"unit_msat":1}],"routes":[{"amount_msat":100000,"final_cltv":18,"path":[{"amount_msat":101200,"carried_msat":100100,"delay":30,"next_node_id":"02bbbbbbbbbbbbbbbbbbbbbbbbbbbbbbbbbbbbbbbbbbbbbbbbbbbbbbbbbbbbbbbb","short_channel_id_dir":"100x1x0/0"},{"amount_msat":100100,"carried_msat":100000,"delay":24,"next_node_id":"02cccccccccccccccccccccccccccccccccccccccccccccccccccccccccccccccc","short_channel_id_dir":"100x2x0/0"}]}]}}
"#,
    ),
    // a direction over its limit gets a cap
    (
        r#"{"channels":[{"active":true,"amount_msat":1000498,"base_fee_millisatoshi":0,"delay":6,"destination":"02bbbbbbbbbbbbbbbbbbbbbbbbbbbbbbbbbbbbbbbbbbbbbbbbbbbbbbbbbbbbbbbb","direction":0,"fee_per_millionth":1000,"htlc_minimum_msat":0,"short_channel_id":"100x6x0","source":"02aaaaaaaaaaaaaaaaaaaaaaaaaaaaaaaaaaaaaaaaaaaaaaaaaaaaaaaaaaaaaaaa"},{"active":true,"amount_msat":1000000,"base_fee_millisatoshi":0,"delay":6,"destination":"02bbbbbbbbbbbbbbbbbbbbbbbbbbbbbbbbbbbbbbbbbbbbbbbbbbbbbbbbbbbbbbbb","direction":0,"fee_per_millionth":5000,"htlc_minimum_msat":0,"short_channel_id":"100x7x0","source":"02aaaaaaaaaaaaaaaaaaaaaaaaaaaaaaaaaaaaaaaaaaaaaaaaaaaaaaaaaaaaaaaa"},{"active":true,"amount_msat":1000000,"base_fee_millisatoshi":0,"delay":6,"destination":"02cccccccccccccccccccccccccccccccccccccccccccccccccccccccccccccccc","direction":0,"fee_per_millionth":1000,"htlc_minimum_msat":0,"short_channel_id":"100x8x0","source":"02bbbbbbbbbbbbbbbbbbbbbbbbbbbbbbbbbbbbbbbbbbbbbbbbbbbbbbbbbbbbbbbb"}]}"#,
        "",
        r#"{"id":1,"method":"getroutes","params":{"amount_msat":999500,"destination":"02cccccccccccccccccccccccccccccccccccccccccccccccccccccccccccccccc","final_cltv":18,"layers":[],"maxfee_msat":5000,"source":"02aaaaaaaaaaaaaaaaaaaaaaaaaaaaaaaaaaaaaaaaaaaaaaaaaaaaaaaaaaaaaaaa"}}
"#,
        r#"{"id":1,"jsonrpc":"2.0","result":{"at":0,"fee_msat":1999,"probability_ppm":0,"rounds":[{"caps":[],"delay_level":0,"fault":{"kind":"directions","short_channel_id_dirs":["100x6x0/0"]},"fee_level":0,"part_max":999500,"parts":[{"path":["100x6x0/0","100x8x0/0"],"units":999500}],"unit_msat":1},{"caps":[{"cap":999499,"short_channel_id_dir":"100x6x0/0","times":1}],"delay_level":0,"fault":{"kind":"none"},"fee_level":0,"part_max":999500,"parts":[{"path":["100x6x0/0","100x8x0/0"],"units":999499},{"path":["100x7x0/0","100x8x0/0"],"units":1}],"unit_msat":1}],"routes":[{"amount_msat":999499,"final_cltv":18,"path":[{"amount_msat":1001498,"carried_msat":1000498,"delay":30,"next_node_id":"02bbbbbbbbbbbbbbbbbbbbbbbbbbbbbbbbbbbbbbbbbbbbbbbbbbbbbbbbbbbbbbbb","short_channel_id_dir":"100x6x0/0"},{"amount_msat":1000498,"carried_msat":999499,"delay":24,"next_node_id":"02cccccccccccccccccccccccccccccccccccccccccccccccccccccccccccccccc","short_channel_id_dir":"100x8x0/0"}]},{"amount_msat":1,"final_cltv":18,"path":[{"amount_msat":1,"carried_msat":1,"delay":30,"next_node_id":"02bbbbbbbbbbbbbbbbbbbbbbbbbbbbbbbbbbbbbbbbbbbbbbbbbbbbbbbbbbbbbbbb","short_channel_id_dir":"100x7x0/0"},{"amount_msat":1,"carried_msat":1,"delay":24,"next_node_id":"02cccccccccccccccccccccccccccccccccccccccccccccccccccccccccccccccc","short_channel_id_dir":"100x8x0/0"}]}]}}
"#,
    ),
    // fees too high at every level
    (
        r#"{"channels":[{"active":true,"amount_msat":1000000,"base_fee_millisatoshi":1000,"delay":6,"destination":"02bbbbbbbbbbbbbbbbbbbbbbbbbbbbbbbbbbbbbbbbbbbbbbbbbbbbbbbbbbbbbbbb","direction":0,"fee_per_millionth":1000,"htlc_minimum_msat":0,"short_channel_id":"100x1x0","source":"02aaaaaaaaaaaaaaaaaaaaaaaaaaaaaaaaaaaaaaaaaaaaaaaaaaaaaaaaaaaaaaaa"},{"active":true,"amount_msat":1000000,"base_fee_millisatoshi":0,"delay":6,"destination":"02cccccccccccccccccccccccccccccccccccccccccccccccccccccccccccccccc","direction":0,"fee_per_millionth":1000,"htlc_minimum_msat":0,"short_channel_id":"100x2x0","source":"02bbbbbbbbbbbbbbbbbbbbbbbbbbbbbbbbbbbbbbbbbbbbbbbbbbbbbbbbbbbbbbbb"}]}"#,
        "",
        r#"{"id":1,"method":"getroutes","params":{"amount_msat":100000,"destination":"02cccccccccccccccccccccccccccccccccccccccccccccccccccccccccccccccc","final_cltv":18,"layers":[],"maxfee_msat":0,"source":"02aaaaaaaaaaaaaaaaaaaaaaaaaaaaaaaaaaaaaaaaaaaaaaaaaaaaaaaaaaaaaaaa"}}
"#,
        r#"{"error":{"code":206,"data":{"at":0,"fee_msat":1200,"limit":"maxfee","rounds":[{"caps":[],"delay_level":0,"fault":{"fee_msat":1200,"kind":"fee"},"fee_level":0,"part_max":100000,"parts":[{"path":["100x1x0/0","100x2x0/0"],"units":100000}],"unit_msat":1},{"caps":[],"delay_level":0,"fault":{"fee_msat":1200,"kind":"fee"},"fee_level":1,"part_max":100000,"parts":[{"path":["100x1x0/0","100x2x0/0"],"units":100000}],"unit_msat":1},{"caps":[],"delay_level":0,"fault":{"fee_msat":1200,"kind":"fee"},"fee_level":2,"part_max":100000,"parts":[{"path":["100x1x0/0","100x2x0/0"],"units":100000}],"unit_msat":1},{"caps":[],"delay_level":0,"fault":{"fee_msat":1200,"kind":"fee"},"fee_level":3,"part_max":100000,"parts":[{"path":["100x1x0/0","100x2x0/0"],"units":100000}],"unit_msat":1},{"caps":[],"delay_level":0,"fault":{"fee_msat":1200,"kind":"fee"},"fee_level":4,"part_max":100000,"parts":[{"path":["100x1x0/0","100x2x0/0"],"units":100000}],"unit_msat":1},{"caps":[],"delay_level":0,"fault":{"fee_msat":1200,"kind":"fee"},"fee_level":5,"part_max":100000,"parts":[{"path":["100x1x0/0","100x2x0/0"],"units":100000}],"unit_msat":1},{"caps":[],"delay_level":0,"fault":{"fee_msat":1200,"kind":"fee"},"fee_level":6,"part_max":100000,"parts":[{"path":["100x1x0/0","100x2x0/0"],"units":100000}],"unit_msat":1},{"caps":[],"delay_level":0,"fault":{"fee_msat":1200,"kind":"fee"},"fee_level":7,"part_max":100000,"parts":[{"path":["100x1x0/0","100x2x0/0"],"units":100000}],"unit_msat":1},{"caps":[],"delay_level":0,"fault":{"fee_msat":1200,"kind":"fee"},"fee_level":8,"part_max":100000,"parts":[{"path":["100x1x0/0","100x2x0/0"],"units":100000}],"unit_msat":1}]},"message":"fee too high"},"id":1,"jsonrpc":"2.0"}
"#,
    ),
    // delays too high at every level
    (
        r#"{"channels":[{"active":true,"amount_msat":1000000,"base_fee_millisatoshi":1000,"delay":6,"destination":"02bbbbbbbbbbbbbbbbbbbbbbbbbbbbbbbbbbbbbbbbbbbbbbbbbbbbbbbbbbbbbbbb","direction":0,"fee_per_millionth":1000,"htlc_minimum_msat":0,"short_channel_id":"100x1x0","source":"02aaaaaaaaaaaaaaaaaaaaaaaaaaaaaaaaaaaaaaaaaaaaaaaaaaaaaaaaaaaaaaaa"},{"active":true,"amount_msat":1000000,"base_fee_millisatoshi":0,"delay":6,"destination":"02cccccccccccccccccccccccccccccccccccccccccccccccccccccccccccccccc","direction":0,"fee_per_millionth":1000,"htlc_minimum_msat":0,"short_channel_id":"100x2x0","source":"02bbbbbbbbbbbbbbbbbbbbbbbbbbbbbbbbbbbbbbbbbbbbbbbbbbbbbbbbbbbbbbbb"}]}"#,
        "",
        r#"{"id":1,"method":"getroutes","params":{"amount_msat":100000,"destination":"02cccccccccccccccccccccccccccccccccccccccccccccccccccccccccccccccc","final_cltv":18,"layers":[],"maxdelay":10,"maxfee_msat":5000,"source":"02aaaaaaaaaaaaaaaaaaaaaaaaaaaaaaaaaaaaaaaaaaaaaaaaaaaaaaaaaaaaaaaa"}}
"#,
        r#"{"error":{"code":205,"data":{"at":0,"delay":30,"limit":"maxdelay","part":0,"rounds":[{"caps":[],"delay_level":0,"fault":{"delay":30,"kind":"delay","part":0},"fee_level":0,"part_max":100000,"parts":[{"path":["100x1x0/0","100x2x0/0"],"units":100000}],"unit_msat":1},{"caps":[],"delay_level":1,"fault":{"delay":30,"kind":"delay","part":0},"fee_level":0,"part_max":100000,"parts":[{"path":["100x1x0/0","100x2x0/0"],"units":100000}],"unit_msat":1},{"caps":[],"delay_level":2,"fault":{"delay":30,"kind":"delay","part":0},"fee_level":0,"part_max":100000,"parts":[{"path":["100x1x0/0","100x2x0/0"],"units":100000}],"unit_msat":1},{"caps":[],"delay_level":3,"fault":{"delay":30,"kind":"delay","part":0},"fee_level":0,"part_max":100000,"parts":[{"path":["100x1x0/0","100x2x0/0"],"units":100000}],"unit_msat":1},{"caps":[],"delay_level":4,"fault":{"delay":30,"kind":"delay","part":0},"fee_level":0,"part_max":100000,"parts":[{"path":["100x1x0/0","100x2x0/0"],"units":100000}],"unit_msat":1},{"caps":[],"delay_level":5,"fault":{"delay":30,"kind":"delay","part":0},"fee_level":0,"part_max":100000,"parts":[{"path":["100x1x0/0","100x2x0/0"],"units":100000}],"unit_msat":1}]},"message":"delay too high"},"id":1,"jsonrpc":"2.0"}
"#,
    ),
];

/// Amounts at a limit: the greatest amount, and the amounts of an HTLC.
pub(crate) const AMOUNTS: &[Row] = &[
    // an amount beyond the greatest
    (
        r#"{"channels":[{"active":true,"amount_msat":2100000000000000000,"base_fee_millisatoshi":0,"delay":6,"destination":"02bbbbbbbbbbbbbbbbbbbbbbbbbbbbbbbbbbbbbbbbbbbbbbbbbbbbbbbbbbbbbbbb","direction":0,"fee_per_millionth":4294967295,"htlc_minimum_msat":0,"short_channel_id":"100x1x0","source":"02aaaaaaaaaaaaaaaaaaaaaaaaaaaaaaaaaaaaaaaaaaaaaaaaaaaaaaaaaaaaaaaa"},{"active":true,"amount_msat":2100000000000000000,"base_fee_millisatoshi":0,"delay":6,"destination":"02cccccccccccccccccccccccccccccccccccccccccccccccccccccccccccccccc","direction":0,"fee_per_millionth":4294967295,"htlc_minimum_msat":0,"short_channel_id":"100x2x0","source":"02bbbbbbbbbbbbbbbbbbbbbbbbbbbbbbbbbbbbbbbbbbbbbbbbbbbbbbbbbbbbbbbb"}]}"#,
        "",
        r#"{"id":1,"method":"getroutes","params":{"amount_msat":2100000000000000000,"destination":"02cccccccccccccccccccccccccccccccccccccccccccccccccccccccccccccccc","final_cltv":18,"layers":[],"maxfee_msat":2100000000000000000,"source":"02aaaaaaaaaaaaaaaaaaaaaaaaaaaaaaaaaaaaaaaaaaaaaaaaaaaaaaaaaaaaaaaa"}}
"#,
        r#"{"error":{"code":205,"data":{"at":0,"cut":["02aaaaaaaaaaaaaaaaaaaaaaaaaaaaaaaaaaaaaaaaaaaaaaaaaaaaaaaaaaaaaaaa"],"limit":"flow","rounds":[{"caps":[],"delay_level":0,"fault":{"kind":"directions","short_channel_id_dirs":["100x1x0/0"]},"fee_level":0,"part_max":2100000000000000000,"parts":[{"path":["100x1x0/0","100x2x0/0"],"units":2100000000000000000}],"unit_msat":1},{"caps":[{"cap":2099999999999999999,"short_channel_id_dir":"100x1x0/0","times":1}],"delay_level":0,"fault":{"kind":"no_flow"},"fee_level":0,"part_max":2100000000000000000,"parts":[],"unit_msat":1}]},"message":"no flow"},"id":1,"jsonrpc":"2.0"}
"#,
    ),
    // an amount below the HTLC minimum
    (
        r#"{"channels":[{"active":true,"amount_msat":1000000,"base_fee_millisatoshi":0,"delay":6,"destination":"02dddddddddddddddddddddddddddddddddddddddddddddddddddddddddddddddd","direction":0,"fee_per_millionth":0,"htlc_minimum_msat":11,"short_channel_id":"100x3x0","source":"02aaaaaaaaaaaaaaaaaaaaaaaaaaaaaaaaaaaaaaaaaaaaaaaaaaaaaaaaaaaaaaaa"}]}"#,
        "",
        r#"{"id":1,"method":"getroutes","params":{"amount_msat":10,"destination":"02dddddddddddddddddddddddddddddddddddddddddddddddddddddddddddddddd","final_cltv":18,"layers":[],"maxfee_msat":0,"source":"02aaaaaaaaaaaaaaaaaaaaaaaaaaaaaaaaaaaaaaaaaaaaaaaaaaaaaaaaaaaaaaaa"}}
{"id":2,"method":"getroutes","params":{"amount_msat":11,"destination":"02dddddddddddddddddddddddddddddddddddddddddddddddddddddddddddddddd","final_cltv":18,"layers":[],"maxfee_msat":0,"source":"02aaaaaaaaaaaaaaaaaaaaaaaaaaaaaaaaaaaaaaaaaaaaaaaaaaaaaaaaaaaaaaaa"}}
"#,
        r#"{"error":{"code":205,"data":{"at":0,"cut":["02aaaaaaaaaaaaaaaaaaaaaaaaaaaaaaaaaaaaaaaaaaaaaaaaaaaaaaaaaaaaaaaa"],"limit":"flow","rounds":[{"caps":[],"delay_level":0,"fault":{"kind":"directions","short_channel_id_dirs":["100x3x0/0"]},"fee_level":0,"part_max":10,"parts":[{"path":["100x3x0/0"],"units":10}],"unit_msat":1},{"caps":[{"cap":0,"short_channel_id_dir":"100x3x0/0","times":1}],"delay_level":0,"fault":{"kind":"no_flow"},"fee_level":0,"part_max":10,"parts":[],"unit_msat":1}]},"message":"no flow"},"id":1,"jsonrpc":"2.0"}
{"id":2,"jsonrpc":"2.0","result":{"at":1,"fee_msat":0,"probability_ppm":999989,"rounds":[{"caps":[],"delay_level":0,"fault":{"kind":"none"},"fee_level":0,"part_max":11,"parts":[{"path":["100x3x0/0"],"units":11}],"unit_msat":1}],"routes":[{"amount_msat":11,"final_cltv":18,"path":[{"amount_msat":11,"carried_msat":11,"delay":24,"next_node_id":"02dddddddddddddddddddddddddddddddddddddddddddddddddddddddddddddddd","short_channel_id_dir":"100x3x0/0"}]}]}}
"#,
    ),
    // a part above the HTLC maximum is halved
    (
        r#"{"channels":[{"active":true,"amount_msat":1000000,"base_fee_millisatoshi":0,"delay":6,"destination":"02dddddddddddddddddddddddddddddddddddddddddddddddddddddddddddddddd","direction":0,"fee_per_millionth":0,"htlc_maximum_msat":400000,"htlc_minimum_msat":0,"short_channel_id":"100x9x0","source":"02aaaaaaaaaaaaaaaaaaaaaaaaaaaaaaaaaaaaaaaaaaaaaaaaaaaaaaaaaaaaaaaa"}]}"#,
        "",
        r#"{"id":1,"method":"getroutes","params":{"amount_msat":600000,"destination":"02dddddddddddddddddddddddddddddddddddddddddddddddddddddddddddddddd","final_cltv":18,"layers":[],"maxfee_msat":0,"source":"02aaaaaaaaaaaaaaaaaaaaaaaaaaaaaaaaaaaaaaaaaaaaaaaaaaaaaaaaaaaaaaaa"}}
{"id":2,"method":"getroutes","params":{"amount_msat":600000,"destination":"02dddddddddddddddddddddddddddddddddddddddddddddddddddddddddddddddd","final_cltv":18,"layers":[],"maxfee_msat":0,"maxparts":1,"source":"02aaaaaaaaaaaaaaaaaaaaaaaaaaaaaaaaaaaaaaaaaaaaaaaaaaaaaaaaaaaaaaaa"}}
"#,
        r#"{"id":1,"jsonrpc":"2.0","result":{"at":0,"fee_msat":0,"probability_ppm":400000,"rounds":[{"caps":[],"delay_level":0,"fault":{"kind":"htlc","short_channel_id_dirs":["100x9x0/0"]},"fee_level":0,"part_max":600000,"parts":[{"path":["100x9x0/0"],"units":600000}],"unit_msat":1},{"caps":[],"delay_level":0,"fault":{"kind":"none"},"fee_level":0,"part_max":300000,"parts":[{"path":["100x9x0/0"],"units":300000},{"path":["100x9x0/0"],"units":300000}],"unit_msat":1}],"routes":[{"amount_msat":300000,"final_cltv":18,"path":[{"amount_msat":300000,"carried_msat":300000,"delay":24,"next_node_id":"02dddddddddddddddddddddddddddddddddddddddddddddddddddddddddddddddd","short_channel_id_dir":"100x9x0/0"}]},{"amount_msat":300000,"final_cltv":18,"path":[{"amount_msat":300000,"carried_msat":300000,"delay":24,"next_node_id":"02dddddddddddddddddddddddddddddddddddddddddddddddddddddddddddddddd","short_channel_id_dir":"100x9x0/0"}]}]}}
{"error":{"code":205,"data":{"at":1,"cut":["02aaaaaaaaaaaaaaaaaaaaaaaaaaaaaaaaaaaaaaaaaaaaaaaaaaaaaaaaaaaaaaaa"],"limit":"flow","rounds":[{"caps":[],"delay_level":0,"fault":{"kind":"htlc","short_channel_id_dirs":["100x9x0/0"]},"fee_level":0,"part_max":600000,"parts":[{"path":["100x9x0/0"],"units":600000}],"unit_msat":1},{"caps":[{"cap":0,"short_channel_id_dir":"100x9x0/0","times":1}],"delay_level":0,"fault":{"kind":"no_flow"},"fee_level":0,"part_max":600000,"parts":[],"unit_msat":1}]},"message":"no flow"},"id":2,"jsonrpc":"2.0"}
"#,
    ),
    // a channel whose parts are too small is closed
    (
        r#"{"channels":[{"active":true,"amount_msat":1000000,"base_fee_millisatoshi":0,"delay":6,"destination":"02dddddddddddddddddddddddddddddddddddddddddddddddddddddddddddddddd","direction":0,"fee_per_millionth":10,"htlc_minimum_msat":0,"short_channel_id":"100x3x0","source":"02aaaaaaaaaaaaaaaaaaaaaaaaaaaaaaaaaaaaaaaaaaaaaaaaaaaaaaaaaaaaaaaa"},{"active":true,"amount_msat":1000000,"base_fee_millisatoshi":0,"delay":6,"destination":"02dddddddddddddddddddddddddddddddddddddddddddddddddddddddddddddddd","direction":0,"fee_per_millionth":0,"htlc_maximum_msat":5,"htlc_minimum_msat":0,"short_channel_id":"100x10x0","source":"02aaaaaaaaaaaaaaaaaaaaaaaaaaaaaaaaaaaaaaaaaaaaaaaaaaaaaaaaaaaaaaaa"}]}"#,
        "",
        r#"{"id":1,"method":"getroutes","params":{"amount_msat":600000,"destination":"02dddddddddddddddddddddddddddddddddddddddddddddddddddddddddddddddd","final_cltv":18,"layers":[],"maxfee_msat":10,"source":"02aaaaaaaaaaaaaaaaaaaaaaaaaaaaaaaaaaaaaaaaaaaaaaaaaaaaaaaaaaaaaaaa"}}
"#,
        r#"{"id":1,"jsonrpc":"2.0","result":{"at":0,"fee_msat":6,"probability_ppm":400000,"rounds":[{"caps":[],"delay_level":0,"fault":{"kind":"htlc","short_channel_id_dirs":["100x10x0/0"]},"fee_level":0,"part_max":600000,"parts":[{"path":["100x10x0/0"],"units":600000}],"unit_msat":1},{"caps":[{"cap":0,"short_channel_id_dir":"100x10x0/0","times":1}],"delay_level":0,"fault":{"kind":"none"},"fee_level":0,"part_max":600000,"parts":[{"path":["100x3x0/0"],"units":600000}],"unit_msat":1}],"routes":[{"amount_msat":600000,"final_cltv":18,"path":[{"amount_msat":600006,"carried_msat":600000,"delay":24,"next_node_id":"02dddddddddddddddddddddddddddddddddddddddddddddddddddddddddddddddd","short_channel_id_dir":"100x3x0/0"}]}]}}
"#,
    ),
];

/// What layers say.
pub(crate) const LAYERS: &[Row] = &[
    // a known maximum of nothing
    (
        r#"{"channels":[{"active":true,"amount_msat":1000000,"base_fee_millisatoshi":0,"delay":6,"destination":"02dddddddddddddddddddddddddddddddddddddddddddddddddddddddddddddddd","direction":0,"fee_per_millionth":0,"htlc_minimum_msat":0,"short_channel_id":"100x3x0","source":"02aaaaaaaaaaaaaaaaaaaaaaaaaaaaaaaaaaaaaaaaaaaaaaaaaaaaaaaaaaaaaaaa"}]}"#,
        "",
        r#"{"id":1,"method":"askrene-create-layer","params":{"layer":"x"}}
{"id":2,"method":"askrene-inform-channel","params":{"amount_msat":1,"inform":"constrained","layer":"x","short_channel_id_dir":"100x3x0/0"}}
{"id":3,"method":"getroutes","params":{"amount_msat":1,"destination":"02dddddddddddddddddddddddddddddddddddddddddddddddddddddddddddddddd","final_cltv":18,"layers":["x"],"maxfee_msat":0,"source":"02aaaaaaaaaaaaaaaaaaaaaaaaaaaaaaaaaaaaaaaaaaaaaaaaaaaaaaaaaaaaaaaa"}}
{"id":4,"method":"askrene-inform-channel","params":{"amount_msat":0,"inform":"constrained","layer":"x","short_channel_id_dir":"100x3x0/0"}}
"#,
        r#"{"id":1,"jsonrpc":"2.0","result":{"at":0}}
{"id":2,"jsonrpc":"2.0","result":{"at":1,"constraints":[{"maximum_msat":0,"short_channel_id_dir":"100x3x0/0","timestamp":130}]}}
{"error":{"code":205,"data":{"at":2,"cut":["02aaaaaaaaaaaaaaaaaaaaaaaaaaaaaaaaaaaaaaaaaaaaaaaaaaaaaaaaaaaaaaaa"],"limit":"flow","rounds":[{"caps":[],"delay_level":0,"fault":{"kind":"no_flow"},"fee_level":0,"part_max":1,"parts":[],"unit_msat":1}]},"message":"no flow"},"id":3,"jsonrpc":"2.0"}
{"error":{"code":-32602,"data":{"name":"amount_msat"},"message":"invalid params"},"id":4,"jsonrpc":"2.0"}
"#,
    ),
    // a minimum is cut to the maximum
    (
        r#"{"channels":[{"active":true,"amount_msat":1000000,"base_fee_millisatoshi":0,"delay":6,"destination":"02dddddddddddddddddddddddddddddddddddddddddddddddddddddddddddddddd","direction":0,"fee_per_millionth":0,"htlc_minimum_msat":0,"short_channel_id":"100x3x0","source":"02aaaaaaaaaaaaaaaaaaaaaaaaaaaaaaaaaaaaaaaaaaaaaaaaaaaaaaaaaaaaaaaa"}]}"#,
        "",
        r#"{"id":1,"method":"askrene-create-layer","params":{"layer":"x"}}
{"id":2,"method":"askrene-inform-channel","params":{"amount_msat":500001,"inform":"constrained","layer":"x","short_channel_id_dir":"100x3x0/0"}}
{"id":3,"method":"askrene-inform-channel","params":{"amount_msat":700000,"inform":"unconstrained","layer":"x","short_channel_id_dir":"100x3x0/0"}}
{"id":4,"method":"getroutes","params":{"amount_msat":400000,"destination":"02dddddddddddddddddddddddddddddddddddddddddddddddddddddddddddddddd","final_cltv":18,"layers":["x"],"maxfee_msat":0,"source":"02aaaaaaaaaaaaaaaaaaaaaaaaaaaaaaaaaaaaaaaaaaaaaaaaaaaaaaaaaaaaaaaa"}}
{"id":5,"method":"getroutes","params":{"amount_msat":500001,"destination":"02dddddddddddddddddddddddddddddddddddddddddddddddddddddddddddddddd","final_cltv":18,"layers":["x"],"maxfee_msat":0,"source":"02aaaaaaaaaaaaaaaaaaaaaaaaaaaaaaaaaaaaaaaaaaaaaaaaaaaaaaaaaaaaaaaa"}}
"#,
        r#"{"id":1,"jsonrpc":"2.0","result":{"at":0}}
{"id":2,"jsonrpc":"2.0","result":{"at":1,"constraints":[{"maximum_msat":500000,"short_channel_id_dir":"100x3x0/0","timestamp":130}]}}
{"id":3,"jsonrpc":"2.0","result":{"at":2,"constraints":[{"minimum_msat":700000,"short_channel_id_dir":"100x3x0/0","timestamp":130}]}}
{"id":4,"jsonrpc":"2.0","result":{"at":3,"fee_msat":0,"probability_ppm":1000000,"rounds":[{"caps":[],"delay_level":0,"fault":{"kind":"none"},"fee_level":0,"part_max":400000,"parts":[{"path":["100x3x0/0"],"units":400000}],"unit_msat":1}],"routes":[{"amount_msat":400000,"final_cltv":18,"path":[{"amount_msat":400000,"carried_msat":400000,"delay":24,"next_node_id":"02dddddddddddddddddddddddddddddddddddddddddddddddddddddddddddddddd","short_channel_id_dir":"100x3x0/0"}]}]}}
{"error":{"code":205,"data":{"at":4,"cut":["02aaaaaaaaaaaaaaaaaaaaaaaaaaaaaaaaaaaaaaaaaaaaaaaaaaaaaaaaaaaaaaaa"],"limit":"flow","rounds":[{"caps":[],"delay_level":0,"fault":{"kind":"no_flow"},"fee_level":0,"part_max":500001,"parts":[],"unit_msat":1}]},"message":"no flow"},"id":5,"jsonrpc":"2.0"}
"#,
    ),
    // a bias decides between equal channels
    (
        r#"{"channels":[{"active":true,"amount_msat":1000000,"base_fee_millisatoshi":0,"delay":6,"destination":"02dddddddddddddddddddddddddddddddddddddddddddddddddddddddddddddddd","direction":0,"fee_per_millionth":0,"htlc_minimum_msat":0,"short_channel_id":"100x4x0","source":"02aaaaaaaaaaaaaaaaaaaaaaaaaaaaaaaaaaaaaaaaaaaaaaaaaaaaaaaaaaaaaaaa"},{"active":true,"amount_msat":1000000,"base_fee_millisatoshi":0,"delay":6,"destination":"02dddddddddddddddddddddddddddddddddddddddddddddddddddddddddddddddd","direction":0,"fee_per_millionth":0,"htlc_minimum_msat":0,"short_channel_id":"100x5x0","source":"02aaaaaaaaaaaaaaaaaaaaaaaaaaaaaaaaaaaaaaaaaaaaaaaaaaaaaaaaaaaaaaaa"}]}"#,
        "",
        r#"{"id":1,"method":"askrene-create-layer","params":{"layer":"x"}}
{"id":2,"method":"askrene-bias-channel","params":{"bias":50,"layer":"x","short_channel_id_dir":"100x5x0/0"}}
{"id":3,"method":"getroutes","params":{"amount_msat":100,"destination":"02dddddddddddddddddddddddddddddddddddddddddddddddddddddddddddddddd","final_cltv":18,"layers":["x"],"maxfee_msat":0,"source":"02aaaaaaaaaaaaaaaaaaaaaaaaaaaaaaaaaaaaaaaaaaaaaaaaaaaaaaaaaaaaaaaa"}}
"#,
        r#"{"id":1,"jsonrpc":"2.0","result":{"at":0}}
{"id":2,"jsonrpc":"2.0","result":{"at":1}}
{"id":3,"jsonrpc":"2.0","result":{"at":2,"fee_msat":0,"probability_ppm":999900,"rounds":[{"caps":[],"delay_level":0,"fault":{"kind":"none"},"fee_level":0,"part_max":100,"parts":[{"path":["100x5x0/0"],"units":100}],"unit_msat":1}],"routes":[{"amount_msat":100,"final_cltv":18,"path":[{"amount_msat":100,"carried_msat":100,"delay":24,"next_node_id":"02dddddddddddddddddddddddddddddddddddddddddddddddddddddddddddddddd","short_channel_id_dir":"100x5x0/0"}]}]}}
"#,
    ),
    // a disabled node, and a layer that is unknown
    (
        r#"{"channels":[{"active":true,"amount_msat":1000000,"base_fee_millisatoshi":1000,"delay":6,"destination":"02bbbbbbbbbbbbbbbbbbbbbbbbbbbbbbbbbbbbbbbbbbbbbbbbbbbbbbbbbbbbbbbb","direction":0,"fee_per_millionth":1000,"htlc_minimum_msat":0,"short_channel_id":"100x1x0","source":"02aaaaaaaaaaaaaaaaaaaaaaaaaaaaaaaaaaaaaaaaaaaaaaaaaaaaaaaaaaaaaaaa"},{"active":true,"amount_msat":1000000,"base_fee_millisatoshi":0,"delay":6,"destination":"02cccccccccccccccccccccccccccccccccccccccccccccccccccccccccccccccc","direction":0,"fee_per_millionth":1000,"htlc_minimum_msat":0,"short_channel_id":"100x2x0","source":"02bbbbbbbbbbbbbbbbbbbbbbbbbbbbbbbbbbbbbbbbbbbbbbbbbbbbbbbbbbbbbbbb"}]}"#,
        "",
        r#"{"id":1,"method":"askrene-create-layer","params":{"layer":"x"}}
{"id":2,"method":"askrene-disable-node","params":{"layer":"x","node":"02bbbbbbbbbbbbbbbbbbbbbbbbbbbbbbbbbbbbbbbbbbbbbbbbbbbbbbbbbbbbbbbb"}}
{"id":3,"method":"getroutes","params":{"amount_msat":100000,"destination":"02cccccccccccccccccccccccccccccccccccccccccccccccccccccccccccccccc","final_cltv":18,"layers":["x"],"maxfee_msat":5000,"source":"02aaaaaaaaaaaaaaaaaaaaaaaaaaaaaaaaaaaaaaaaaaaaaaaaaaaaaaaaaaaaaaaa"}}
{"id":4,"method":"getroutes","params":{"amount_msat":100000,"destination":"02cccccccccccccccccccccccccccccccccccccccccccccccccccccccccccccccc","final_cltv":18,"layers":["y"],"maxfee_msat":5000,"source":"02aaaaaaaaaaaaaaaaaaaaaaaaaaaaaaaaaaaaaaaaaaaaaaaaaaaaaaaaaaaaaaaa"}}
"#,
        r#"{"id":1,"jsonrpc":"2.0","result":{"at":0}}
{"id":2,"jsonrpc":"2.0","result":{"at":1}}
{"error":{"code":205,"data":{"at":2,"limit":"source"},"message":"unknown source"},"id":3,"jsonrpc":"2.0"}
{"error":{"code":302,"data":{"at":3,"layer":"y"},"message":"unknown layer"},"id":4,"jsonrpc":"2.0"}
"#,
    ),
];

/// A local file, a created channel, an ordinary payment, and a cut with its certificate.
pub(crate) const FILES: &[Row] = &[
    // a local channel
    (
        "",
        r#"{"channels":[{"active":true,"amount_msat":300000,"base_fee_millisatoshi":0,"delay":6,"destination":"02dddddddddddddddddddddddddddddddddddddddddddddddddddddddddddddddd","direction":0,"fee_per_millionth":0,"htlc_minimum_msat":0,"short_channel_id":"100x3x0","source":"02aaaaaaaaaaaaaaaaaaaaaaaaaaaaaaaaaaaaaaaaaaaaaaaaaaaaaaaaaaaaaaaa"}]}"#,
        r#"{"id":1,"method":"getroutes","params":{"amount_msat":300000,"destination":"02dddddddddddddddddddddddddddddddddddddddddddddddddddddddddddddddd","final_cltv":18,"layers":[],"maxfee_msat":0,"source":"02aaaaaaaaaaaaaaaaaaaaaaaaaaaaaaaaaaaaaaaaaaaaaaaaaaaaaaaaaaaaaaaa"}}
{"id":2,"method":"getroutes","params":{"amount_msat":300000,"destination":"02dddddddddddddddddddddddddddddddddddddddddddddddddddddddddddddddd","final_cltv":18,"layers":["auto.localchans"],"maxfee_msat":0,"source":"02aaaaaaaaaaaaaaaaaaaaaaaaaaaaaaaaaaaaaaaaaaaaaaaaaaaaaaaaaaaaaaaa"}}
"#,
        r#"{"error":{"code":205,"data":{"at":0,"limit":"source"},"message":"unknown source"},"id":1,"jsonrpc":"2.0"}
{"id":2,"jsonrpc":"2.0","result":{"at":1,"fee_msat":0,"probability_ppm":1000000,"rounds":[{"caps":[],"delay_level":0,"fault":{"kind":"none"},"fee_level":0,"part_max":300000,"parts":[{"path":["100x3x0/0"],"units":300000}],"unit_msat":1}],"routes":[{"amount_msat":300000,"final_cltv":18,"path":[{"amount_msat":300000,"carried_msat":300000,"delay":24,"next_node_id":"02dddddddddddddddddddddddddddddddddddddddddddddddddddddddddddddddd","short_channel_id_dir":"100x3x0/0"}]}]}}
"#,
    ),
    // an ordinary payment
    (
        r#"{"channels":[{"active":true,"amount_msat":5000000000,"base_fee_millisatoshi":1000,"delay":80,"destination":"02bbbbbbbbbbbbbbbbbbbbbbbbbbbbbbbbbbbbbbbbbbbbbbbbbbbbbbbbbbbbbbbb","direction":0,"fee_per_millionth":100,"htlc_minimum_msat":0,"short_channel_id":"100x1x0","source":"02aaaaaaaaaaaaaaaaaaaaaaaaaaaaaaaaaaaaaaaaaaaaaaaaaaaaaaaaaaaaaaaa"},{"active":true,"amount_msat":3000000000,"base_fee_millisatoshi":1000,"delay":34,"destination":"02cccccccccccccccccccccccccccccccccccccccccccccccccccccccccccccccc","direction":0,"fee_per_millionth":250,"htlc_minimum_msat":0,"short_channel_id":"100x2x0","source":"02bbbbbbbbbbbbbbbbbbbbbbbbbbbbbbbbbbbbbbbbbbbbbbbbbbbbbbbbbbbbbbbb"}]}"#,
        "",
        r#"{"id":1,"method":"getroutes","params":{"amount_msat":50000000,"destination":"02cccccccccccccccccccccccccccccccccccccccccccccccccccccccccccccccc","final_cltv":18,"layers":["auto.sourcefree"],"maxfee_msat":250000,"source":"02aaaaaaaaaaaaaaaaaaaaaaaaaaaaaaaaaaaaaaaaaaaaaaaaaaaaaaaaaaaaaaaa"}}
"#,
        r#"{"id":1,"jsonrpc":"2.0","result":{"at":0,"fee_msat":13500,"probability_ppm":973497,"rounds":[{"caps":[],"delay_level":0,"fault":{"kind":"none"},"fee_level":0,"part_max":50000000,"parts":[{"path":["100x1x0/0","100x2x0/0"],"units":50000000}],"unit_msat":1}],"routes":[{"amount_msat":50000000,"final_cltv":18,"path":[{"amount_msat":50013500,"carried_msat":50013500,"delay":52,"next_node_id":"02bbbbbbbbbbbbbbbbbbbbbbbbbbbbbbbbbbbbbbbbbbbbbbbbbbbbbbbbbbbbbbbb","short_channel_id_dir":"100x1x0/0"},{"amount_msat":50013500,"carried_msat":50000000,"delay":52,"next_node_id":"02cccccccccccccccccccccccccccccccccccccccccccccccccccccccccccccccc","short_channel_id_dir":"100x2x0/0"}]}]}}
"#,
    ),
    // a created channel begins disabled
    (
        "",
        "",
        r#"{"id":1,"method":"askrene-create-layer","params":{"layer":"x"}}
{"id":2,"method":"askrene-create-channel","params":{"capacity_msat":1000,"destination":"02dddddddddddddddddddddddddddddddddddddddddddddddddddddddddddddddd","layer":"x","short_channel_id":"100x3x0","source":"02aaaaaaaaaaaaaaaaaaaaaaaaaaaaaaaaaaaaaaaaaaaaaaaaaaaaaaaaaaaaaaaa"}}
{"id":3,"method":"getroutes","params":{"amount_msat":10,"destination":"02dddddddddddddddddddddddddddddddddddddddddddddddddddddddddddddddd","final_cltv":18,"layers":["x"],"maxfee_msat":0,"source":"02aaaaaaaaaaaaaaaaaaaaaaaaaaaaaaaaaaaaaaaaaaaaaaaaaaaaaaaaaaaaaaaa"}}
{"id":4,"method":"askrene-update-channel","params":{"enabled":true,"layer":"x","short_channel_id_dir":"100x3x0/0"}}
{"id":5,"method":"getroutes","params":{"amount_msat":10,"destination":"02dddddddddddddddddddddddddddddddddddddddddddddddddddddddddddddddd","final_cltv":18,"layers":["x"],"maxfee_msat":0,"source":"02aaaaaaaaaaaaaaaaaaaaaaaaaaaaaaaaaaaaaaaaaaaaaaaaaaaaaaaaaaaaaaaa"}}
{"id":6,"method":"askrene-create-channel","params":{"capacity_msat":1000,"destination":"02dddddddddddddddddddddddddddddddddddddddddddddddddddddddddddddddd","layer":"x","short_channel_id":"100x3x0","source":"02aaaaaaaaaaaaaaaaaaaaaaaaaaaaaaaaaaaaaaaaaaaaaaaaaaaaaaaaaaaaaaaa"}}
"#,
        r#"{"id":1,"jsonrpc":"2.0","result":{"at":0}}
{"id":2,"jsonrpc":"2.0","result":{"at":1}}
{"error":{"code":205,"data":{"at":2,"limit":"source"},"message":"unknown source"},"id":3,"jsonrpc":"2.0"}
{"id":4,"jsonrpc":"2.0","result":{"at":3}}
{"id":5,"jsonrpc":"2.0","result":{"at":4,"fee_msat":0,"probability_ppm":990009,"rounds":[{"caps":[],"delay_level":0,"fault":{"kind":"none"},"fee_level":0,"part_max":10,"parts":[{"path":["100x3x0/0"],"units":10}],"unit_msat":1}],"routes":[{"amount_msat":10,"final_cltv":18,"path":[{"amount_msat":10,"carried_msat":10,"delay":18,"next_node_id":"02dddddddddddddddddddddddddddddddddddddddddddddddddddddddddddddddd","short_channel_id_dir":"100x3x0/0"}]}]}}
{"error":{"code":303,"data":{"at":5,"layer":"x","short_channel_id":"100x3x0"},"message":"channel exists"},"id":6,"jsonrpc":"2.0"}
"#,
    ),
    // a cut with its certificate
    (
        r#"{"channels":[{"active":true,"amount_msat":1000000,"base_fee_millisatoshi":0,"delay":6,"destination":"02dddddddddddddddddddddddddddddddddddddddddddddddddddddddddddddddd","direction":0,"fee_per_millionth":0,"htlc_minimum_msat":0,"short_channel_id":"100x3x0","source":"02aaaaaaaaaaaaaaaaaaaaaaaaaaaaaaaaaaaaaaaaaaaaaaaaaaaaaaaaaaaaaaaa"}]}"#,
        "",
        r#"{"id":1,"method":"getroutes","params":{"amount_msat":1000001,"certificate":true,"destination":"02dddddddddddddddddddddddddddddddddddddddddddddddddddddddddddddddd","final_cltv":18,"layers":[],"maxfee_msat":0,"source":"02aaaaaaaaaaaaaaaaaaaaaaaaaaaaaaaaaaaaaaaaaaaaaaaaaaaaaaaaaaaaaaaa"}}
"#,
        r#"{"error":{"code":205,"data":{"at":0,"certificate":"askrene-certificate 2\ncut 2 7 0 1 1000001\narc 0 0 1 300000 255000000001\narc 0 0 1 200000 255000000001\narc 0 0 1 150000 255000000001\narc 0 0 1 150000 255000000001\narc 0 0 1 100000 255000000001\narc 0 0 1 50000 255000000001\narc 0 0 1 50000 255000000001\nside 1\nside 0\nend\n","cut":["02aaaaaaaaaaaaaaaaaaaaaaaaaaaaaaaaaaaaaaaaaaaaaaaaaaaaaaaaaaaaaaaa"],"limit":"flow","rounds":[{"caps":[],"delay_level":0,"fault":{"kind":"no_flow"},"fee_level":0,"part_max":1000001,"parts":[],"unit_msat":1}]},"message":"no flow"},"id":1,"jsonrpc":"2.0"}
"#,
    ),
];

/// Two channels that are filled whole, with a certificate: the map, the line, and the reply up to the potentials.
pub(crate) const CERTIFIED: (&str, &str, &str) = (
    r#"{"channels":[{"active":true,"amount_msat":600000,"base_fee_millisatoshi":0,"delay":6,"destination":"02dddddddddddddddddddddddddddddddddddddddddddddddddddddddddddddddd","direction":0,"fee_per_millionth":0,"htlc_minimum_msat":0,"short_channel_id":"100x4x0","source":"02aaaaaaaaaaaaaaaaaaaaaaaaaaaaaaaaaaaaaaaaaaaaaaaaaaaaaaaaaaaaaaaa"},{"active":true,"amount_msat":400000,"base_fee_millisatoshi":0,"delay":6,"destination":"02dddddddddddddddddddddddddddddddddddddddddddddddddddddddddddddddd","direction":0,"fee_per_millionth":0,"htlc_minimum_msat":0,"short_channel_id":"100x5x0","source":"02aaaaaaaaaaaaaaaaaaaaaaaaaaaaaaaaaaaaaaaaaaaaaaaaaaaaaaaaaaaaaaaa"}]}"#,
    r#"{"id":1,"method":"getroutes","params":{"amount_msat":1000000,"certificate":true,"destination":"02dddddddddddddddddddddddddddddddddddddddddddddddddddddddddddddddd","final_cltv":18,"layers":[],"maxfee_msat":0,"source":"02aaaaaaaaaaaaaaaaaaaaaaaaaaaaaaaaaaaaaaaaaaaaaaaaaaaaaaaaaaaaaaaa"}}
"#,
    r#"{"id":1,"jsonrpc":"2.0","result":{"at":0,"certificate":"askrene-certificate 2\nflow 2 14 0 1 1000000\narc 0 0 1 180000 255000000001 180000\narc 0 0 1 120000 255000000001 120000\narc 0 0 1 90000 255000000001 90000\narc 0 0 1 90000 255000000001 90000\narc 0 0 1 60000 255000000001 60000\narc 0 0 1 30000 255000000001 30000\narc 0 0 1 30000 255000000001 30000\narc 1 0 1 120000 255000000001 120000\narc 1 0 1 80000 255000000001 80000\narc 1 0 1 60000 255000000001 60000\narc 1 0 1 60000 255000000001 60000\narc 1 0 1 40000 255000000001 40000\narc 1 0 1 20000 255000000001 20000\narc 1 0 1 20000 255000000001 20000\n"#,
);
