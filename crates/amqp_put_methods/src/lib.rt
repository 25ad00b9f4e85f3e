//! A call for each method: it puts the method's frame from its fields. Made by bindings/generate from the rows of
//! amqp_types, and not to be edited.
#![tactic(auto)]

mod methods;

pub use methods::{
    put_access_request, put_access_request_ok, put_basic_ack, put_basic_cancel,
    put_basic_cancel_ok, put_basic_consume, put_basic_consume_ok, put_basic_deliver, put_basic_get,
    put_basic_get_empty, put_basic_get_ok, put_basic_nack, put_basic_publish, put_basic_qos,
    put_basic_qos_ok, put_basic_recover, put_basic_recover_async, put_basic_recover_ok,
    put_basic_reject, put_basic_return, put_channel_close, put_channel_close_ok, put_channel_flow,
    put_channel_flow_ok, put_channel_open, put_channel_open_ok, put_confirm_select,
    put_confirm_select_ok, put_connection_blocked, put_connection_close, put_connection_close_ok,
    put_connection_open, put_connection_open_ok, put_connection_secure, put_connection_secure_ok,
    put_connection_start, put_connection_start_ok, put_connection_tune, put_connection_tune_ok,
    put_connection_unblocked, put_connection_update_secret, put_connection_update_secret_ok,
    put_exchange_bind, put_exchange_bind_ok, put_exchange_declare, put_exchange_declare_ok,
    put_exchange_delete, put_exchange_delete_ok, put_exchange_unbind, put_exchange_unbind_ok,
    put_queue_bind, put_queue_bind_ok, put_queue_declare, put_queue_declare_ok, put_queue_delete,
    put_queue_delete_ok, put_queue_purge, put_queue_purge_ok, put_queue_unbind,
    put_queue_unbind_ok, put_tx_commit, put_tx_commit_ok, put_tx_rollback, put_tx_rollback_ok,
    put_tx_select, put_tx_select_ok,
};
