// The bench's domain and problem, built into the program as examples/bench has them.
use check_calls::LoadReply;

pub fn load() -> LoadReply {
    check_calls::load(
        b"; The infusion bench of document 01: one dose must not follow another before the lock is over.
(define (domain bench)
  (:requirements :strips :typing :fluents :durative-actions)
  (:types pump)
  (:predicates (ready ?p - pump) (on ?p - pump))
  (:functions (lock ?p - pump) (doses ?p - pump))
  (:durative-action dose
    :parameters (?p - pump)
    :duration (= ?duration (lock ?p))
    :condition (and (at start (ready ?p)) (over all (on ?p)))
    :effect (and (at start (not (ready ?p))) (at end (ready ?p)) (at end (increase (doses ?p) 1))))
  (:action off
    :parameters (?p - pump)
    :precondition (on ?p)
    :effect (not (on ?p)))
  (:action note
    :parameters (?p - pump)
    :effect (increase (doses ?p) 1))
  (:action zero
    :parameters (?p - pump)
    :effect (assign (doses ?p) 0)))
",
        b"; Two pumps, ready and on. The test wants two doses from pump a.
(define (problem two-doses)
  (:domain bench)
  (:objects a b - pump)
  (:init
    (ready a) (ready b) (on a) (on b)
    (= (lock a) 5) (= (lock b) 5)
    (= (doses a) 0) (= (doses b) 0))
  (:goal (>= (doses a) 2)))
",
    )
}
