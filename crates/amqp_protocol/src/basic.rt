//! The methods of the class basic, 60, and the properties of the messages that it carries.

pub use amqp_basic::basic::{
    AMQPMethod, Ack, Cancel, CancelOk, Consume, ConsumeOk, Deliver, Get, GetEmpty, GetOk, Nack,
    Publish, Qos, QosOk, Recover, RecoverAsync, RecoverOk, Reject, Return, gen_ack, gen_basic,
    gen_cancel, gen_cancel_ok, gen_consume, gen_consume_ok, gen_deliver, gen_get, gen_get_empty,
    gen_get_ok, gen_nack, gen_publish, gen_qos, gen_qos_ok, gen_recover, gen_recover_async,
    gen_recover_ok, gen_reject, gen_return, parse_ack, parse_basic, parse_cancel, parse_cancel_ok,
    parse_consume, parse_consume_ok, parse_deliver, parse_get, parse_get_empty, parse_get_ok,
    parse_nack, parse_publish, parse_qos, parse_qos_ok, parse_recover, parse_recover_async,
    parse_recover_ok, parse_reject, parse_return, put_ack, put_basic, put_cancel, put_cancel_ok,
    put_consume, put_consume_ok, put_deliver, put_get, put_get_empty, put_get_ok, put_nack,
    put_publish, put_qos, put_qos_ok, put_recover, put_recover_async, put_recover_ok, put_reject,
    put_return, size_ack, size_basic, size_cancel, size_cancel_ok, size_consume, size_consume_ok,
    size_deliver, size_get, size_get_empty, size_get_ok, size_nack, size_publish, size_qos,
    size_qos_ok, size_recover, size_recover_async, size_recover_ok, size_reject, size_return,
};
pub use amqp_properties::{
    AMQPProperties, gen_properties, parse_properties, put_properties, size_properties,
};
