//! What lines are read as, and the bytes of replies.
use plan_base::Text;
use rpc_lines::{Body, Id, Reply, RpcFault, read_request, write_reply};
use serde_json::{Value, json};
use std::alloc::{AllocError, Global};
use std::test::Fail;

fn id_shown(alloc: Global, id: &Id) -> Result<String, AllocError> {
    match id {
        Id::Null => String::from_str(alloc, "null"),
        Id::Unsigned(n) => format!(in alloc; "unsigned {n}"),
        Id::Signed(n) => format!(in alloc; "signed {n}"),
        Id::Text(text) => format!(in alloc; "text {}", text.as_str()),
    }
}

fn read(alloc: Global, line: &[u8]) -> Result<String, AllocError> {
    match read_request(alloc, line) {
        Ok(request) => {
            let id = id_shown(alloc, &request.id)?;
            let params = request.params.to_string(alloc)?;
            format!(in alloc; "{id}: {} {params}", request.method.as_str())
        }
        Err(RpcFault::NotJson) => String::from_str(alloc, "not JSON"),
        Err(RpcFault::NotRequest { id }) => {
            let id = id_shown(alloc, &id)?;
            format!(in alloc; "not a request, {id}")
        }
        Err(RpcFault::NoMemory) => Err(AllocError),
    }
}

#[test]
fn lines_are_read_as(rt: HostRuntime) -> Result<(), Fail> {
    let rows = [
        (
            r#"{"id":1,"method":"m","params":{"b":[1],"a":null}}"#,
            r#"unsigned 1: m {"a":null,"b":[1]}"#,
        ),
        (r#"{"id":0,"method":""}"#, "unsigned 0:  {}"),
        (
            r#"{"id":18446744073709551615,"method":"m","params":null}"#,
            "unsigned 18446744073709551615: m {}",
        ),
        (r#"{"id":-1,"method":"m","params":[]}"#, "signed -1: m []"),
        (
            r#"{"id":-9223372036854775808,"method":"m"}"#,
            "signed -9223372036854775808: m {}",
        ),
        (
            "{\"id\":\"a\\\"\\u00e9\\ud83d\\ude00\\u007f\",\"method\":\"\\u006d\"}",
            "text a\"é😀\x7f: m {}",
        ),
        (r#"{"id":null,"method":"m"}"#, "null: m {}"),
        (r#"{"method":"m"}"#, "null: m {}"),
        (
            r#"{"id":1.5,"id":2,"method":1,"method":"b","params":1,"params":{"a":1,"a":2}}"#,
            r#"unsigned 2: b {"a":2}"#,
        ),
        (
            " {\"jsonrpc\":\"1.0\",\"method\":\"m\",\"other\":1.5}\t\r",
            "null: m {}",
        ),
        (
            r#"{"method":"m","params":[[[[[[[[[[[[[[[[[[[[[[[[[[[[[[[[[[[[[[[[[[[[[[[[[[[[[[[[[[[[[[[[[[[[[[[[[[[[[[[[[[[[[[[[[[[[[[[[[[[[[[[[[[[[[[[[[[[[[[[[[[[[[[]]]]]]]]]]]]]]]]]]]]]]]]]]]]]]]]]]]]]]]]]]]]]]]]]]]]]]]]]]]]]]]]]]]]]]]]]]]]]]]]]]]]]]]]]]]]]]]]]]]]]]]]]]]]]]]]]]]]]]]]]]]]]]}"#,
            "null: m [[[[[[[[[[[[[[[[[[[[[[[[[[[[[[[[[[[[[[[[[[[[[[[[[[[[[[[[[[[[[[[[[[[[[[[[[[[[[[[[[[[[[[[[[[[[[[[[[[[[[[[[[[[[[[[[[[[[[[[[[[[[[[]]]]]]]]]]]]]]]]]]]]]]]]]]]]]]]]]]]]]]]]]]]]]]]]]]]]]]]]]]]]]]]]]]]]]]]]]]]]]]]]]]]]]]]]]]]]]]]]]]]]]]]]]]]]]]]]]]]]]]]]]]]]]]",
        ),
        (r#"{"id":-0,"method":"m"}"#, "not a request, null"),
        (r#"{"id":1.0,"method":"m"}"#, "not a request, null"),
        (r#"{"id":1e2,"method":"m"}"#, "not a request, null"),
        (
            r#"{"id":18446744073709551616,"method":"m"}"#,
            "not a request, null",
        ),
        (
            r#"{"id":-9223372036854775809,"method":"m"}"#,
            "not a request, null",
        ),
        (r#"{"id":false,"method":"m"}"#, "not a request, null"),
        (r#"{"id":[1],"method":"m"}"#, "not a request, null"),
        (r#"[{"id":1,"method":"m"}]"#, "not a request, null"),
        (r#""m""#, "not a request, null"),
        ("null", "not a request, null"),
        (r#"{"id":7}"#, "not a request, unsigned 7"),
        (r#"{"id":-7,"method":["m"]}"#, "not a request, signed -7"),
        (
            r#"{"id":"x","method":null,"params":1}"#,
            "not a request, text x",
        ),
        (
            r#"{"id":7,"method":"m","params":1}"#,
            "not a request, unsigned 7",
        ),
        (
            r#"{"id":7,"method":"m","params":"x"}"#,
            "not a request, unsigned 7",
        ),
        (
            r#"{"id":7,"method":"m","params":true}"#,
            "not a request, unsigned 7",
        ),
        ("", "not JSON"),
        (r#"{"id":1,"method":"m""#, "not JSON"),
        (r#"{"id":1,"method":"m"}]"#, "not JSON"),
        ("{\"id\":\"\\ud800\",\"method\":\"m\"}", "not JSON"),
        (r#"{"id":1e400,"method":"m"}"#, "not JSON"),
        (r#"{"id":01,"method":"m"}"#, "not JSON"),
        ("{\"id\":\"a\tb\",\"method\":\"m\"}", "not JSON"),
        (
            r#"{"method":"m","params":[[[[[[[[[[[[[[[[[[[[[[[[[[[[[[[[[[[[[[[[[[[[[[[[[[[[[[[[[[[[[[[[[[[[[[[[[[[[[[[[[[[[[[[[[[[[[[[[[[[[[[[[[[[[[[[[[[[[[[[[[[[[[[[]]]]]]]]]]]]]]]]]]]]]]]]]]]]]]]]]]]]]]]]]]]]]]]]]]]]]]]]]]]]]]]]]]]]]]]]]]]]]]]]]]]]]]]]]]]]]]]]]]]]]]]]]]]]]]]]]]]]]]]]]]]]]]]}"#,
            "not JSON",
        ),
    ];
    for (line, expected) in rows {
        let found = read(rt.alloc(), line.as_bytes())?;
        assert!(rt; found.as_str() == expected, "{line} is {found}");
    }
    let found = read(rt.alloc(), b"{\"id\":\"\xff\",\"method\":\"m\"}")?;
    assert!(rt; found.as_str() == "not JSON");
    Ok(())
}

fn is_line(alloc: Global, id: Id, body: Body, expected: &str) -> Result<bool, Fail> {
    let line = write_reply(alloc, &Reply { id, body })?;
    Ok(line.as_slice() == expected.as_bytes())
}

#[test]
fn replies_have_these_bytes(rt: HostRuntime) -> Result<(), Fail> {
    let alloc = rt.alloc();
    let error = Body::error(
        alloc,
        301,
        "layer exists",
        json!(in alloc; {"layer": "x", "at": 1})?,
    )?;
    let escaped = Body::error(
        alloc,
        -32700,
        "a \"b\" \\ / \u{1f}\u{7f}é",
        json!(in alloc; {})?,
    )?;
    let text = Id::Text(Text::from_text(alloc, "\n\u{0}☃")?);
    let object = Body::result(json!(in alloc; {"at": 0})?);
    let rows = [
        (
            Id::Unsigned(1),
            object,
            "{\"id\":1,\"jsonrpc\":\"2.0\",\"result\":{\"at\":0}}\n",
        ),
        (
            Id::Null,
            Body::place(4_194_303),
            "{\"id\":null,\"jsonrpc\":\"2.0\",\"result\":{\"at\":4194303}}\n",
        ),
        (
            Id::Unsigned(2),
            error,
            "{\"error\":{\"code\":301,\"data\":{\"at\":1,\"layer\":\"x\"},\"message\":\"layer exists\"},\"id\":2,\"jsonrpc\":\"2.0\"}\n",
        ),
        (
            Id::Null,
            escaped,
            "{\"error\":{\"code\":-32700,\"data\":{},\"message\":\"a \\\"b\\\" \\\\ / \\u001f\u{7f}é\"},\"id\":null,\"jsonrpc\":\"2.0\"}\n",
        ),
        (
            text,
            Body::result(Value::Null),
            "{\"id\":\"\\n\\u0000☃\",\"jsonrpc\":\"2.0\",\"result\":null}\n",
        ),
        (
            Id::Signed(-9223372036854775808),
            Body::result(Value::Bool(true)),
            "{\"id\":-9223372036854775808,\"jsonrpc\":\"2.0\",\"result\":true}\n",
        ),
    ];
    for (id, body, expected) in rows {
        assert!(rt; is_line(alloc, id, body, expected)?, "not {expected}");
    }
    Ok(())
}
