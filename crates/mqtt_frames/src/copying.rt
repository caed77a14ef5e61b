//! Equal packets in memory of their own.
ghost use Rattle.std.specs.Prelude.{◌≡◌, IfOk};

use crate::{
    Connect, List, Packet, Publish, Request, Subscribe, SubscribeAck, SubscribeCode, Unsubscribe,
};
use sng_text::Octets;
use std::alloc::{AllocError, Global};

impl Packet {
    /// An equal packet, in memory of its own. The only error is that an allocation failed.
    pub fn copy(&self) -> Result<Packet, AllocError>
        ensures { IfOk result (λ packet. packet ≡ self.now) }
    {
        Ok(match self {
            Packet::Connect(connect) => Packet::Connect(copy_connect(connect)?),
            Packet::ConnectAck(answer) => Packet::ConnectAck(*answer),
            Packet::Publish(publish) => Packet::Publish(copy_publish(publish)?),
            Packet::PublishAck(packet_id) => Packet::PublishAck(*packet_id),
            Packet::Subscribe(subscribe) => Packet::Subscribe(copy_subscribe(subscribe)?),
            Packet::SubscribeAck(answer) => Packet::SubscribeAck(copy_subscribe_ack(answer)?),
            Packet::Unsubscribe(unsubscribe) => {
                Packet::Unsubscribe(copy_unsubscribe(unsubscribe)?)
            }
            Packet::UnsubscribeAck(packet_id) => Packet::UnsubscribeAck(*packet_id),
            Packet::PingRequest => Packet::PingRequest,
            Packet::PingResponse => Packet::PingResponse,
            Packet::Disconnect => Packet::Disconnect,
        })
    }
}

fn copy_connect(connect: &Connect) -> Result<Connect, AllocError>
    ensures { IfOk result (λ c. c ≡ connect.now) }
{
    Ok(Connect {
        clean_session: connect.clean_session,
        keep_alive: connect.keep_alive,
        client_id: connect.client_id.copy()?,
    })
}

fn copy_publish(publish: &Publish) -> Result<Publish, AllocError>
    ensures { IfOk result (λ p. p ≡ publish.now) }
{
    Ok(Publish {
        dup: publish.dup,
        retain: publish.retain,
        packet_id: publish.packet_id,
        name: publish.name.copy()?,
        payload: publish.payload.copy()?,
    })
}

fn copy_subscribe(subscribe: &Subscribe) -> Result<Subscribe, AllocError>
    ensures { IfOk result (λ s. s ≡ subscribe.now) }
{
    let requests = copy_requests(
        subscribe.requests.allocator(),
        subscribe.requests.as_slice(),
    )?;
    Ok(Subscribe {
        packet_id: subscribe.packet_id,
        requests: List::from(requests),
    })
}

fn copy_requests(alloc: Global, requests: &[Request]) -> Result<Vec<Request>, AllocError>
    ensures { IfOk result (λ v. v.items ≡ requests.now) }
{
    let mut copies = Vec::with_capacity(alloc, requests.len())?;
    for request in requests {
        copies.push(Request {
            filter: request.filter.copy()?,
            qos: request.qos,
        })?;
    }
    Ok(copies)
}

fn copy_subscribe_ack(answer: &SubscribeAck) -> Result<SubscribeAck, AllocError>
    ensures { IfOk result (λ a. a ≡ answer.now) }
{
    let codes = copy_codes(answer.codes.allocator(), answer.codes.as_slice())?;
    Ok(SubscribeAck {
        packet_id: answer.packet_id,
        codes: List::from(codes),
    })
}

fn copy_codes(alloc: Global, codes: &[SubscribeCode]) -> Result<Vec<SubscribeCode>, AllocError>
    ensures { IfOk result (λ v. v.items ≡ codes.now) }
{
    Vec::from_slice(alloc, codes)
}

fn copy_unsubscribe(unsubscribe: &Unsubscribe) -> Result<Unsubscribe, AllocError>
    ensures { IfOk result (λ u. u ≡ unsubscribe.now) }
{
    let filters = copy_filters(
        unsubscribe.filters.allocator(),
        unsubscribe.filters.as_slice(),
    )?;
    Ok(Unsubscribe {
        packet_id: unsubscribe.packet_id,
        filters: List::from(filters),
    })
}

fn copy_filters(alloc: Global, filters: &[Octets]) -> Result<Vec<Octets>, AllocError>
    ensures { IfOk result (λ v. v.items ≡ filters.now) }
{
    let mut copies = Vec::with_capacity(alloc, filters.len())?;
    for filter in filters {
        copies.push(filter.copy()?)?;
    }
    Ok(copies)
}
